// Queue: a set of numbers below m, smallest first, in bytes of a buffer that the caller lends. The check of an image keeps in it the
// slots that it has still to look at.
//
//     at                  at + m              at + m + ceil(m / 64)      at + room m
//     | a flag for each   | one for each 64   | one for each 4,096       |
//     | number            | of those          | numbers                  |
//
// A flag above is set exactly if one of its 64 is: a number is added with three stores, and the smallest is found by looking at no more
// than 64 + 64 + ceil(m / 4096) flags. Bytes outside are left as they are.
//
//     keep.rt   the four calls: empty, add, remove, smallest
//     level.rt  one level of flags over another: a group looked through, and its flag made right again
//     scan.rt   the first flag that is set; flags cleared
//
//     specs/Queue.antt   the queue, and what the calls promise     specs/Level.antt   one level over another
//     specs/*Laws.antt   what the proofs cite

#![tactic(auto)]

pub mod keep;
pub mod level;
pub mod scan;
