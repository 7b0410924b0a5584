// Audit: whether a slot is ready, the question of the check's rising pass. Definitions and laws are in `audit` (specs/Greedy.antt, specs/ReadyLaws.antt).
//
//     ready.rt   whether a slot is ready

#![tactic(auto)]

pub mod ready;
