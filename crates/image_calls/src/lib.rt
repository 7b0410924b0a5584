// Images: loader and the public calls. The format and its reader are in `image`, the writer in `image_writer`.
//
//     loader.rt    the loader
//     calls.rt     the public calls: the tests 1 to 7, then writer or loader
//
// The loader goes over an image twice. The first pass, the reader's, tests all and writes nothing; the second fills the buffers and tests nothing.

#![tactic(auto)]

pub mod calls;
pub mod loader;
