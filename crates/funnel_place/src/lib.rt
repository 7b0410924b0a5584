// Funnel tables: many insertions. State and all definitions are in `funnel`, the search in `funnel_search`, the insertion of one identity in
// `funnel_insert`.
//
//     place_all.rt  many insertions into a valid table

#![tactic(auto)]

pub mod place_all;
