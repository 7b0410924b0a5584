// Geometry: the two parts of a funnel's plan that are searched for. `geometry` has what they are.
//
//     special.rt   the special length s: the largest of its range
//     counts.rt    the bucket counts of the levels, each the largest that leaves a sum that can be met

#![tactic(auto)]

pub mod counts;
pub mod special;
