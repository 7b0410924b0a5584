// Images: a funnel table as bytes. Carries the format of 01's "Image and check"; the Rust has no counterpart. The writer is in
// `image_writer`, loader and public calls are in `image_calls`.
//
// An image is a row of fields, each a tag of one byte, a length of two and a body, all numbers little-endian:
//
//     | 1 n (8) | 2 e (4) | 3 seed (8) | 4 label (1 to 64)? | 5 entries (16 each, to 4,095)* | 6 count (8) |
//
//     head.rt      what names a table
//     field.rt     the format as a table of its kinds of field; one field, in 01's order of testing
//     reader.rt    the whole image: what it says, or the place where it is malformed
//
// A reader carries a stage from field to field: the lowest rank that may come next, the rank of a field being the place of its kind in the format's table
// (`fields` of specs/Format.antt, `kind_at` of field.rt). So another field is another row, and another format another table.

#![tactic(auto)]

pub mod field;
pub mod head;
pub mod reader;
