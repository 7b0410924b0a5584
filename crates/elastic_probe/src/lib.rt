// Probes of elastic tables: the order in which a query reads them, and how many an insertion may spend.
//
// Carries 01's section "Probes", phi and budget, and the elastic part of the Rust's probe.rs; `probe` has keys, words and reductions.
//
//     phi.rt       phi, its bounded form and its inverse
//     wide.rt      numbers of two words
//     budget.rt    how many probes a batch may spend in its current level
//
// Public functions refuse what 01 says they refuse, and require nothing.

#![tactic(auto)]

pub mod budget;
pub mod phi;
pub mod wide;
