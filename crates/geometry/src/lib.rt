// Geometry: how a table of n slots with reserve 2^-e is laid out. Carries 01's "Layouts" and the Rust's `geometry.rs`.
//
// A funnel table is cut into alpha ordinary levels, of counts[k] buckets of beta slots each, and a special part:
//
//     0                                        n - s                  n - floor(s/2)        n
//     | level 0 | level 1 | .. | level alpha-1 | primary, ceil(s/2)   | fallback, floor(s/2)|
//
//     config.rt    the tests N, ZEROEXP, SIZE; the largest number of members
//     elastic.rt   the plan of an elastic table: its gate (1 to 3), its levels and quotas; whether given numbers are that plan
//     funnel.rt    the plan of a funnel: its numbers
//
// The plan of a funnel is worked out and tested in `geometry_funnel`, its special length and its counts in `geometry_parts`: a crate
// is proved as a whole, so each is one. What a plan is stands here, in specs/Funnel.antt (with Special.antt and Counts.antt), what
// callers may lean on in FunnelLaws.antt, PartLaws.antt and FunnelGateLaws.antt.

#![tactic(auto)]

pub mod config;
pub mod elastic;
pub mod funnel;
