// Script, the part on elastic tables: ERUN and EBULK.
//
//     setting.rt   a command taken apart: the table that it opens, and what it asks of it
//     held.rt      a table opened in buffers of its length, and the run on it
//     answers.rt   what an insertion or a query is answered

#![tactic(auto)]

pub mod answers;
pub mod held;
pub mod setting;
