// Funnel tables: the public calls. Carries `ScalarFunnel` of the Rust's reference.rs. State and all definitions are in `funnel`; what the calls
// do once the state is tested is in `funnel_search`, `funnel_insert` and `funnel_place`.
//
//     calls.rt      the public calls: open, search, insert, place_all. Each tests the state, 1 to 7, and requires nothing

#![tactic(auto)]

pub mod calls;
