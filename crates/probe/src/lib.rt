// Probes: the words of a table, and what is made of them.
//
// Carries 01's section "Probes" and the Rust's probe.rs; phi and the budget, which only elastic tables need, are in `elastic_probe`.
// An identity under a seed has keys; a key and a counter give a word of 64 bits; a word and a number u of values give an index
// below u, or are rejected. The counter says which word it is, in fields from the top down:
//
//     elastic   level: bits 16 to 20 | probe: 3 to 15 | retry: 0 to 2
//     funnel    tag: bits 62 and 63 | level: 16 to 61 | probe: 8 to 15 | retry: 0 to 7
//
//     mix.rt       mix64, the finaliser of splitmix64
//     counter.rt   counters, packed by shifts
//     word.rt      keys and words
//     range.rt     reduction of words to an index
//
// Public functions refuse what 01 says they refuse, and require nothing. The tables use the cores beside them, which
// take keys worked out once for an identity and a counter whose retry is 0.

#![tactic(auto)]

pub mod counter;
pub mod mix;
pub mod range;
pub mod word;
