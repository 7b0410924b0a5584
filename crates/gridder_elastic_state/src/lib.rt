// The state block of the calls for C on elastic tables, 2,048 bytes. Every number in it is a little-endian word of eight bytes:
//
//     0     2, the kind: an elastic table
//     8     n               16  e, below 2^32       24  seed            32  word cap        40  count
//     48    maximum         56  levels              64  c               72  uniform-search cap
//     80    query position cap
//     88    the counts of 32 levels, 0 past the last
//     344   zeros, which no call reads
//
//     state.rt    the block, read and written
//
// specs/State.antt says what it holds.

#![tactic(auto)]

pub mod state;
