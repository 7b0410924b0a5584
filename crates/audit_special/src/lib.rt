// Audit: the turns in the special part, the last step of the check. Definitions and laws are in `audit` (specs/Waits.antt, specs/WaitsLaws.antt).
//
//     special.rt   the next special slot that is ready, again and again

#![tactic(auto)]

pub mod special;
