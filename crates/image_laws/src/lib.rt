// Theorems on table images, over the definitions of the crate `image` alone. They stand in a crate of their own so that
// an edit of the code need not have them checked again.
//
//     CallRoundTrip.antt    what `write_image` wrote, `load_image` loads back; what `load_image` accepts, `write_image`
//                           writes again byte for byte: load_image_after_write_image, write_image_after_load_image
//     RoundTrip.antt        the same behind the gate: load_after_write, write_after_load
//     ReadAfterWrite.antt   the image of a table is read as what was written, and its label stands where the loader says:
//                           read_after_write, label_stands
//     WriteAfterRead.antt   an image that is read as right is the image of what was read: write_after_read
//     TableLaws.antt        a clean table is filled from its entries; entries that rise are those of the table they fill;
//                           the slot that DIRTY names is the smallest
//     Fuel.antt             the bound on the number of fields plays no part in a reading: read_fuel
//     Examples.antt         case N of 01, and a place for each way in which an image can be malformed

#![tactic(auto)]
