// Elastic tables: the query. Carries the query of the Rust's `ScalarElastic`; `elastic` has the state and the slots of a level.
//
//     query.rt     the query of a table
//     walk.rt      its walk, by mapped positions alone
//
// specs/Query.antt says what a query is, position by position; QuerySteps.antt how the mapped ones are walked.

#![tactic(auto)]

pub mod query;
mod walk;
