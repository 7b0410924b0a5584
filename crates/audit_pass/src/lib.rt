// Audit: the passes of the check over all slots. Definitions and laws are in `audit` (specs/Greedy.antt), the turns in the special part in `audit_special`.
//
//     pass.rt   the two passes

#![tactic(auto)]

pub mod pass;
