// Text: what the programs share to read lines of numbers and to print.
//
//     field.rt     fields between single spaces, and the numbers in them
//     line.rt      lines out of an input that comes in parts
//     out.rt       output gathered in a lent buffer, written when it is full
//     buffers.rt   the large arrays
//
// The programs are run and compared with stored outputs; here everything is proved safe and ending, for any bytes.

#![tactic(auto)]

pub mod buffers;
pub mod field;
pub mod line;
pub mod out;
