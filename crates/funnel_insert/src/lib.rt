// Funnel tables: insertion. Carries the insertion of `ScalarFunnel` of the Rust's reference.rs. State and all definitions are in `funnel`, the
// search in `funnel_search`.
//
//     insert.rt     insertion into a valid table

#![tactic(auto)]

pub mod insert;
