// Script, the part on funnel tables: FRUN and FBULK, the operations of a run on a table that is opened.
//
//     runs.rt      a run and the end of its answer
//     answers.rt   what an insertion or a search is answered

#![tactic(auto)]

pub mod answers;
pub mod runs;
