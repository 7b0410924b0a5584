// Funnel tables: the path of an identity, the walks over its slots, and what every call on a table is to answer. Carries 01's "Tables" as
// far as it is about funnels. The search is in `funnel_stages` and `funnel_search`, insertion in `funnel_insert` and `funnel_place`, the
// public calls are in `funnel_calls`: a crate is proved as a whole, so each part is a crate.
//
// A table is a small state by value, with the counts of its levels, n words and n flags lent beside it. Its slots lie side
// by side. Words are lent as numbers or as bytes; every walk is written once, over the element that they are stored in (`lent`, store.rt).
//
//     0          start of level k                    n - s                   n - floor(s/2)          n
//     | level 0 | .. | count_k buckets of beta | .. | primary, ceil(s/2)    | buckets of width 2g   |
//
// An identity has one path, whatever the table holds: in each level one bucket, its beta slots in order; then g primary
// probes; then two fallback buckets, both drawn before either is read, slot by slot. A search walks along it and stops at
// the identity or at the first vacancy; the probe count is the number of slots read. An insertion writes at that vacancy.
// A draw that is refused ends the path, and the search with it.
//
//     table.rt      the state, and what the calls answer
//     view.rt       a valid table that is lent to be read
//     scan.rt       walks over slots, the only readers of the buffers
//
// specs/Path.antt says what a path is, Search.antt and Insert.antt what a search and an insertion are, Viewed.antt what is asked of a view,
// Calls.antt what the public calls answer; proofs/FreshLaws.antt has the theorems about a table over time.

#![tactic(auto)]

pub mod scan;
pub mod table;
pub mod view;
