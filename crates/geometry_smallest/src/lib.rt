// Geometry: the smallest funnel table for a number of cells. `geometry` has what a plan is, `geometry_funnel` works it out.
//
// A table of n slots has a layout exactly where it has a special length s. There are stretches of hundreds of millions of n without
// one, so the search jumps. It rests on four facts, for a given e:
//
//     s is 0 or 1 modulo 4g, and g changes at n = 257 and n = 65,537 only, among the n that are large enough for a layout;
//     the lower bound of s never falls as n grows, so each s below the next such length is lost for good;
//     a length s fits only from the n on whose upper bound reaches it;
//     the maximum never falls as n grows, so a count asks for an n of at least count + (count - 1) / (2^e - 1).
//
// A turn of the search asks one n. Where its range of s holds a length, only the division by beta can fail, and one of any beta
// n in a row passes it, so there are few turns: never more than 12e + 3, which the loop counts, and 79 at most among all that
// were tried.
//
//     smallest.rt   the call: its refusals, the smallest n, its plan
//     layouts.rt    the smallest n from a start on that has a layout: the search and its jump
//     slots.rt      the smallest n that a count asks for
//     minimum.rt    a lower bound on the n that have a layout, which is no layout yet

#![tactic(auto)]

mod layouts;
pub mod minimum;
mod slots;
pub mod smallest;
