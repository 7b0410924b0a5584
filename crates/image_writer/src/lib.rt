// Images: the writer. The format is in `image`, the public call in `image_calls`.
//
//     dirty.rt     DIRTY: the smallest slot that no table has
//     writer.rt    the writer
//
//     specs/Writing.antt   what the writer answers and writes     specs/Pieces.antt   what each of its functions writes
//     specs/Dirty.antt     the smallest dirty slot                specs/*Laws.antt    what the proofs cite

#![tactic(auto)]

pub mod dirty;
pub mod writer;
