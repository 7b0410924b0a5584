// Theorems on elastic tables over time, over the definitions of the insertion and the query alone. They stand in a crate of
// their own so that an edit of the code need not have them checked again.
//
//     Never.antt           the answer to request 10: no sequence of insertions from fresh meets SCHEDULE, the quotas sum to the
//                          maximum, and what a query answers, exactly
//     QuotaLaws.antt       how full the levels are after each batch: quotas_fill; that the cut does not move a batch
//     BatchLaws.antt       the level counts in a batch, a law for each step: batch_fresh, batch_takes, batch_ends; what the two
//                          levels hold: batch_holds; that they are not both at their limit: never_both_full
//     ChoiceLaws.antt      which level an insertion takes, and where it answers SCHEDULE: steps_chose, steps_schedule
//     ScheduleLaws.antt    every table from fresh follows the schedule: reached_scheduled; so no insertion is answered
//                          SCHEDULE: never_schedule
//     GateLaws.antt        every table from fresh passes its tests: reached_gate
//     HoldsLaws.antt       which slots hold an identity, before and after a slot is written
//     WalkLaws.antt        the walk of a query ends by the position at which the identity is read: positions_answer; what it
//                          answers of one that no slot holds: positions_unanswered
//     LookupLaws.antt      an identity that went in stands in one slot, and a query answers that slot no later than the phi of
//                          its insertion, unless a range reduction is refused before: went_placed, found_by_phi
//     Examples.antt        a state that a caller made up is still answered SCHEDULE: made_up_schedule
//
// They stand in proofs/, but for GateLaws.antt, HoldsLaws.antt and Examples.antt, which are in specs/ with the definitions that all use:
// Schedule.antt, Choice.antt, Lasting.antt and Lookup.antt. So an edit of such a definition is refused by the theorem that no longer holds.

#![tactic(auto)]
