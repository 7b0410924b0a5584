// Audit: the check itself. Carries 01's "Image and check", the check. `audit` has the greedy order and its laws, `audit_pass` the passes over all
// slots.
//
//     check.rt   the call, its gate and its answer: how many are placed, or Disorder, Dirty, or a refusal 1 to 7
//
// specs/Check.antt says what the check answers, its gate and its endings.

#![tactic(auto)]

pub mod check;
