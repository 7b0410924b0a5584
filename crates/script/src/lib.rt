// Script: what the commands of the program `replay` share. Each command is a line that calls the library and an answer in
// print; the commands themselves stand in crates by what they call, so that each is proved beside the others.
//
//     request.rt     a run taken apart: its table, and what is asked of it
//     operation.rt   the operations of a run
//     run.rt         a run: each operation carried out and answered or counted, and the end of its answer
//     digest.rt      a table's digest
//     print.rt       refusals and places as text

#![tactic(auto)]

pub mod digest;
pub mod operation;
pub mod print;
pub mod request;
pub mod run;
