// Script, the commands on funnel tables: LOAD, WRITE and CHECK, and FRUN and FBULK by `script_funnel`.
//
//     held.rt    a table opened in buffers of its length, and the task done on it
//     load.rt    LOAD
//     write.rt   WRITE
//     check.rt   CHECK
//
// Lines are taken apart by `script_tasks`. Here as there everything is proved safe and ending; the answers are those of the
// public calls, and what is printed is run and compared.

#![tactic(auto)]

mod check;
pub mod held;
mod load;
mod write;
