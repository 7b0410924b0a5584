// Examine, its words: what the program `examine` prints of an image and of its table.
//
//     header.rt    n, e and seed
//     summary.rt   what the table is
//     telling.rt   what the check says of it
//     say.rt       refusals, text and shares
//
// It stands apart from the program so that it is proved beside the calls that the program makes.

#![tactic(auto)]

pub mod header;
pub mod say;
pub mod summary;
pub mod telling;
