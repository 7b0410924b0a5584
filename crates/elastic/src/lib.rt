// Elastic tables: state, opening, and the slots of a level. Carries 01's "Tables", elastic part, and the Rust's `ScalarElastic` with
// `CounterPrf`; insertion is in `elastic_steps` and `elastic_insert`, the query in `elastic_query`: a crate is proved as a whole, so each is one.
//
// A table is a state by value, its level counts, and two lent buffers of n entries: words, and flags (0 is vacant). Words are lent as
// numbers or as bytes, in one of two slices (`lent`, store.rt); what reads or stores them is written once for both. The levels lie side
// by side, each about half of what remains:
//
//     0                n/2          3n/4     7n/8      n
//     | level 0        | level 1    | ..     | last    |
//
// A probe of a level is one slot, drawn from the identity's words. An insertion reads the probes 0, 1, .. of one or two levels,
// chosen by how full they are, and takes the first vacant slot; a query reads the probes of all levels in the order of phi.
//
//     state.rt     the state, its limits, the tests 1 to 3, 6 and 7; opening
//     route.rt     the slot of a probe; the search for a vacancy; the scan for an identity

#![tactic(auto)]

pub mod route;
pub mod state;
