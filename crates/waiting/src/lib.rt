// Waiting: numbers below m, each of which may wait on another, in bytes of a buffer that the caller lends. The check of an image files in it
// the special slots that cannot be placed yet.
//
//     0                     4 * m                 8 * m                 8 * m + room m
//     | heads: the first    | nexts: the next     | a queue of the      |
//     | that waits on each  | that waits on the   | candidates, those   |
//     | number              | same                | to be looked at     |
//
// A link is four bytes: 0, or one more than a number. A number that waits on another is filed at the head of its chain. When that one is
// placed, the whole chain becomes candidates again; nothing else needs another look.
//
//     chain.rt   the calls: clear, file, wake
//
//     specs/Links.antt     the bytes, and what each call leaves in them     specs/Waiting.antt   the chains, and what lies on them
//     specs/*Laws.antt     what the proofs cite; WaitingLaws: the chains stay right

#![tactic(auto)]

pub mod chain;
