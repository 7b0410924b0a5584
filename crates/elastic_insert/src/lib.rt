// Elastic tables: insertion. Carries the insertion of the Rust's `ScalarElastic`; its steps and its definition are in `elastic_steps`.
//
//     insert.rt    the tests, the insertion, and what it writes
//
// specs/Table.antt and TableLaws.antt say what holds of a table over time.

#![tactic(auto)]

pub mod insert;
