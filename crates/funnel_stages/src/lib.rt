// Funnel tables: the stages of a path, each by draws that can take further words. Carries `FunnelPrf` of the Rust's reference.rs. State, walks
// over slots and all definitions are in `funnel`.
//
//     stages.rt     the levels, the primary probes, the two fallback buckets

#![tactic(auto)]

pub mod stages;
