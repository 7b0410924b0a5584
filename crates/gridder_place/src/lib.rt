// The call for C that finds or enters many identities in a funnel table. Identities and slots are lent as
// little-endian bytes, as words are.
//
//     placing.rt    the call
//
// specs/Place.antt says what it answers and leaves.

#![tactic(auto)]

pub mod placing;
