// The question for the smallest funnel table, for C. Carries request 4 of the changes after the base; `geometry_smallest` has the search.
//
// The answer block holds n and the numbers of its plan, a little-endian word of eight bytes each, zeros behind them:
//
//     0   n                 8   maximum           16  alpha: the ordinary levels
//     24  beta: slots of an ordinary bucket       32  g
//     40  slots of a fallback bucket              48  special length, s
//     56  primary slots     64  fallback slots    72  fallback buckets
//     80  ordinary buckets  88  buckets of the first level
//
// The buckets of each level come with opening such a table.
//
//     rent.rt    the gate of the question, and what it is answered
//
// specs/Rent.antt says what the call answers and leaves.

#![tactic(auto)]

pub mod rent;
