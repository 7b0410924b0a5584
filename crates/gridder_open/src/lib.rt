// The opening of a funnel table for C. Words are lent as little-endian bytes, eight to a word.
//
//     open.rt    the gate of an opening, what a refusal says, and the opening itself
//
// specs/Open.antt says what the call answers and leaves.

#![tactic(auto)]

pub mod open;
