// The calls for C on images of funnel tables: load and write. Carries the images of request 1 of the changes after the base.
//
// The loader is that of `image_calls`, the writer that of `image_writer`, with words lent as bytes. State block and answer block are those of `gridder_state` and
// `gridder_answer`; of the answer block these calls use
//
//     40   slot, of DIRTY
//     96   byte place, of IMAGE
//     104  label offset     112  label length
//     120  image length, also where there is too little room for it
//
//     say.rt      the answer block
//     calls.rt    the exported calls, which test first whether the block holds a table
//
// specs/Say.antt says what the answer block holds, Calls.antt what each call answers and leaves.

#![tactic(auto)]

pub mod calls;
pub mod say;
