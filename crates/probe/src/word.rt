// Keys of an identity under a seed, and the words that a key and a counter give.
// Elastic and funnel draws differ in keys, fields and limits, not in a type or a constant: so there are two of a function where both are drawn.
ghost use Rattle.std.specs.Prelude.{◌≡◌};
ghost use Rattle.probe.specs.Word.{elastic_key_of, funnel_in_of, funnel_out_of, word_of, elastic_worded_of, funnel_worded_of};

use crate::counter::{Domain, elastic_counter, funnel_counter};
use crate::mix::mix64;
use words::place::LogicalProbe;

// The two numbers that key a funnel's words: 01's "in" and "out", the Rust's `key_in` and `key_out`.
#[derive(Clone, Copy)]
pub struct FunnelKey {
    pub inner: u64,
    pub outer: u64,
}

// "Elastic key = identity + seed + 9E3779B97F4A7C15, wrapped"
pub fn elastic_key(seed: u64, identity: u64) -> u64
    ensures { result ≡ elastic_key_of seed identity }
{
    std::num::wrapping_add_u64(
        std::num::wrapping_add_u64(identity, seed),
        0x9E3779B97F4A7C15,
    )
}

// "keyed = identity + seed, wrapped; in = keyed + 2D358DCCAA6C78A5; out = mix64(keyed + 8BB84B93962EACC9)"
pub fn funnel_key(seed: u64, identity: u64) -> FunnelKey
    ensures { (result.inner ≡ funnel_in_of seed identity) × (result.outer ≡ funnel_out_of seed identity) }
{
    let keyed = std::num::wrapping_add_u64(identity, seed);
    FunnelKey {
        inner: std::num::wrapping_add_u64(keyed, 0x2D358DCCAA6C78A5),
        outer: mix64(std::num::wrapping_add_u64(keyed, 0x8BB84B93962EACC9)),
    }
}

// "word = mix64(counter xor key) xor key" for the elastic table; the funnel's key is one number inside and one outside.
// It takes both: as one `FunnelKey` an elastic key would be held twice.
pub(crate) fn keyed_word(inner: u64, outer: u64, counter: u64) -> u64
    ensures { result ≡ word_of inner outer counter }
{
    mix64(counter ^ inner) ^ outer
}

// One word of an elastic probe; none for a field beyond the packing.
pub fn elastic_word(
    seed: u64,
    identity: u64,
    level: u64,
    probe: LogicalProbe,
    retry: u64,
) -> Option<u64>
    ensures { result ≡ elastic_worded_of seed identity level probe.0 retry }
{
    let counter = elastic_counter(level, probe, retry)?;
    let key = elastic_key(seed, identity);
    Some(keyed_word(key, key, counter))
}

// One word of a funnel probe; none for a field beyond the packing.
pub fn funnel_word(
    seed: u64,
    identity: u64,
    domain: Domain,
    probe: LogicalProbe,
    retry: u64,
) -> Option<u64>
    ensures { result ≡ funnel_worded_of seed identity domain probe.0 retry }
{
    let counter = funnel_counter(domain, probe, retry)?;
    let key = funnel_key(seed, identity);
    Some(keyed_word(key.inner, key.outer, counter))
}
