// What the calls for C on elastic tables say. Of the answer block, 128 bytes (`gridder_answer`), they use
//
//     0   paper probe       8   case: 0 batch 0, else 1 to 3            16  level           24  batch
//     32  slot in its level                         40  global slot
//     48  words: of RANGE, or of a whole query      72  position: phi of an insertion, or where a query ended
//     80  mapped            88  gap
//     96  free slots of the current level          104  of the next     112  budget
//
//     say.rt    the block, filled
//
// specs/Say.antt says what it holds.

#![tactic(auto)]

pub mod say;
