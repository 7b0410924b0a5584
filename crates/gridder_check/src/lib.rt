// The check for C: whether some order of insertions makes a funnel table, on byte slices. Carries request 1 of the changes after the base.
//
// The blocks are those of `gridder_state` and `gridder_answer` (see the heads of their lib.rt). Of the answer block the check writes the
// number of members placed, at 64, and the slot of DISORDER or DIRTY, at 40.
//
//     call.rt     the exported call, its gate and its answer
//
// specs/Check.antt says what the call answers and leaves.

#![tactic(auto)]

pub mod call;
