// The answer block of the calls for C: what a call has to say beside the number that it answers. Carries request 1 of the changes after
// the base; the state block is in `gridder_state`.
//
// Every number in it is a little-endian word of eight bytes. 128 bytes, zeros where there is nothing to say:
//
//     0   probes: the slots read
//     8   kind of the place: 1 ordinary, 2 primary, 3 fallback
//     16  level             24  bucket
//     32  slot in its bucket, or among the primary ones
//     40  global slot
//     48  words, of RANGE
//     56  1 where a search met the identity, 0 where it met a vacancy
//     64  placed: the identities that have their slot
//
// and of the other calls: 72 position, 80 mapped, 88 gap, 96 byte place, 104 label offset, 112 label length, 120 image length.
//
//     answer.rt    the block, filled
//     gate.rt      the length of a block, tested past the other tests of a call
//
// specs/Answer.antt says what it holds.

#![tactic(auto)]

pub mod answer;
pub mod gate;
