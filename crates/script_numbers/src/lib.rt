// Script, the part on numbers: MIX EP FP EW FW ER FR PHI PHB PHINV BUD, the layouts EL and FL, and how small: SN and MS.
//
//     probes.rt    a command told by its word, and its answer
//     draws.rt     words and reductions for a domain
//     phi.rt       PHI PHB PHINV
//     layouts.rt   EL FL
//     smallest.rt  SN MS

#![tactic(auto)]

pub mod draws;
pub mod layouts;
pub mod phi;
pub mod probes;
pub mod smallest;
