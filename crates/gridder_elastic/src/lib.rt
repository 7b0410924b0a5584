// The calls for C on elastic tables: open, insert, query. Carries the elastic part of request 1 of the changes after the base.
//
// Each call tests what it is lent, requires nothing, and answers as the calls on funnel tables do. Words are lent as little-endian bytes,
// eight to a word, and `elastic_insert` and `elastic_query` work on them; no table is copied. The blocks are those of `gridder_elastic_state`
// and `gridder_elastic_answer`.
//
//     enter.rt    what every call on a table begins with: its state is read, and its tests are run
//     calls.rt    the exported calls
//
// specs/Calls.antt says what each call answers and leaves, specs/Enter.antt how one begins.

#![tactic(auto)]

pub mod calls;
pub mod enter;
