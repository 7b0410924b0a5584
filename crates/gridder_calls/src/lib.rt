// The calls for C on funnel tables: search and insertion. An opening is in `gridder_open`, the
// placement of many identities in `gridder_place`. Words are lent as little-endian bytes, eight to a word; the engine of the base walks over
// them (`funnel_search`, `funnel_insert`), and no table is copied. State block, words, flags and answer block are parameters each, as C lends them.
//
//     enter.rt      what every call on a table begins with: it is read from its block, if that holds one, and its tests are run
//     funnels.rt    search and insertion, and the gate of every call on a table
//
// specs/Calls.antt says what each call answers and leaves, specs/Enter.antt how one begins.

#![tactic(auto)]

pub mod enter;
pub mod funnels;
