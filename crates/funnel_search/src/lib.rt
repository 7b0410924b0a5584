// Funnel tables: the search along the path of an identity. Carries the searches of `ScalarFunnel` of the Rust's reference.rs. State, walks over
// slots and all definitions are in `funnel`, the stages of a path in `funnel_stages`.
//
//     search.rt     the search along all of a path, in a valid table; the levels alone, told by the slot

#![tactic(auto)]

pub mod search;
