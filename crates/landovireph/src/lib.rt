// The calls for C, all that `liblandovireph.a` gives. Each hands on to the crates that do the work: `gridder_open`, `gridder_calls` and `gridder_place` (funnel
// tables), `gridder_images`, `gridder_check`, `gridder_elastic`; the question for the smallest table is `gridder_rent`'s. They stand in one crate because an archive
// has the functions of one crate, and in so thin a one because making the archive proves it again.
//
// The layout of the blocks is at the heads of the lib.rt of `gridder_state` and `gridder_answer`; `include/landovireph.h` is the manual.

#![tactic(auto)]

pub mod check;
pub mod elastics;
pub mod funnels;
pub mod images;
pub mod rent;
