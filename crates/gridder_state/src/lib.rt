// The state block of the calls for C: the numbers of a table between two calls. Carries request 1 of the changes after the base.
//
// A call tests what it is lent, requires nothing, answers the number of its refusal (0 where there is none), and writes what more it has to
// say to the answer block, which is in `gridder_answer`. The calls are in `landovireph`; what they do is in
// `gridder_calls`, `gridder_check`, `gridder_images` and `gridder_elastic`.
//
// Every number in a block is a little-endian word of eight bytes. The state block, 2,048 bytes, of a funnel table:
//
//     0     1, the kind: a funnel table (2 is kept for elastic tables; any other block holds no state)
//     8     n               16  e, below 2^32       24  seed            32  word cap        40  count
//     48    maximum         56  alpha               64  beta            72  g               80  fallback width
//     88    special length  96  primary length     104  fallback length
//     112   fallback buckets                       120  buckets of all levels               128  first count
//     136   the counts of 118 levels, 0 past the last
//     1080  zeros, which no call reads
//
//     state.rt    the block, read and written
//
// specs/State.antt says what it holds.

#![tactic(auto)]

pub mod state;
