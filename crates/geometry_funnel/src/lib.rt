// Geometry: the plan of a funnel table, and the test whether given numbers are it. `geometry` has what a plan is, `geometry_parts`
// the search for its special length and its counts.
//
//     plan.rt          the plan: its gate (1 to 5), its numbers, its counts; whether given numbers are that plan
//     special_test.rt  a test of the special length without a division
//     counts_test.rt   a test of the counts by one walk from their end, which is much cheaper than computing them

#![tactic(auto)]

mod counts_test;
pub mod plan;
mod special_test;
