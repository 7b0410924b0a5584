// Audit: the check of a funnel table's image. Carries 01's "Image and check", the check; the Rust has no counterpart.
//
// Is there an order of insertions that makes this table? From empty marks the check takes, again and again, the smallest
// unplaced occupied slot that is ready: an insertion of its identity into the placed part would be answered as inserted at
// that very slot. The placed part is itself a table, the image's words with the marks for flags, so that readiness is a
// search of a funnel table.
//
//     0              slots below n - s: ordinary               n - s    primary, fallback     n
//     | one rising pass: a slot depends on smaller ones only   | the smallest candidate first |
//     | then: who waits on whom, and the candidates            |                              |
//
// An image whose members are all ordinary costs one search for each and nothing else. No placement in the special part changes
// what the ordinary part of a path says, so that part is read once for each special member: the dead are not looked at again. A
// live one is looked at by its special slots alone, and again only when the slot that its search ended at is placed: every look
// moves that end on along a path of a few slots, so no image costs more than a few looks for each member. The lists for that lie
// in the ordinary marks (crate `waiting`), which are made again from the order at the end. That the answer means what it should
// (accepted exactly if some order makes the image) is proved in the crate `demand`, over the definitions alone.
//
// Words and order are lent as numbers or as bytes: each function is written over the element that both are stored in (crate `lent`).
//
// Here are the definitions, the verdicts and what looks at slots one by one. Whether a slot is ready is in `audit_ready`, the turns in the special part in
// `audit_special`, the passes over all slots in `audit_pass`, the public call in `audit_calls`.
//
//     verdict.rt which special slots are live, and their queue
//     restore.rt the marks made again
//     slots.rt   the first dirty slot, the first that is left
//
//     specs/Greedy.antt    the greedy order
//     specs/Special.antt   a path's two parts        specs/Verdicts.antt   the verdicts, given and queued
//     specs/Waits.antt     the turns in the special part     specs/Marked.antt   the marks of an order
//     specs/Viewed.antt    the same of an image that is lent as one view
//     specs/*Laws.antt     what the proofs cite; OrdinaryLaws: why the rising pass is right; SpecialLaws: why a verdict is final;
//                          WaitsLaws: why no other than a candidate is ready

#![tactic(auto)]

pub mod restore;
pub mod slots;
pub mod verdict;
