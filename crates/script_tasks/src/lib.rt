// Script, the commands on funnel tables taken apart: FRUN, FBULK, LOAD, WRITE and CHECK.
//
//     request.rt   the table that a command opens, and what it asks of it
//     bytes.rt     bytes as pairs of hexadecimal digits
//     entries.rt   what a table holds: SLOT=ID or SLOT=ID:FLAG
//
// It makes no call on a table, so it is proved beside these calls.

#![tactic(auto)]

pub mod bytes;
pub mod entries;
pub mod request;
