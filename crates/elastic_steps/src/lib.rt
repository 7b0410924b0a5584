// Elastic tables: what an insertion is, and its steps. Carries the choice of levels of the Rust's `ScalarElastic`; `elastic` has the state and the
// slots of a level, `elastic_insert` the insertion that writes.
//
//     answer.rt    what an insertion answers
//     steps.rt     which levels are searched, and the slot that they choose
//
// specs/Insert.antt says what an insertion is.

#![tactic(auto)]

pub mod answer;
pub mod steps;
