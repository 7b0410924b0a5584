// Words: the arithmetic that the language lacks, and the four kinds of position that must not be mixed up.
//
//     product.rt   products of two words: modulo 2^64, and both halves
//     power.rt     2^64 mod u; division by powers of two at any exponent; ceil(log2)
//     bytes.rt     little-endian numbers in byte slices
//     clear.rt     buffers set to zero
//     place.rt     level slot, global slot, paper probe, logical probe; the place of a funnel's cell
//
// The functions of product.rt and power.rt carry `floor_div_pow2`, `ceil_div_pow2` and `ceil_log2` of the Rust's
// geometry.rs and stand in for its u128. Contracts are the mathematical meaning, over natural numbers.

#![tactic(auto)]

pub mod bytes;
pub mod clear;
pub mod place;
pub mod power;
pub mod product;
