// Reduction of words to an index below a number of values, without bias.
// Elastic and funnel draws differ in keys, fields and limits, not in a type or a constant: so there are two of a function where both are drawn.
// The cores ask for bounds of level, probe, length and cap as numbers: the public functions have tested them, and a type for each would hold one number.
ghost use Rattle.std.specs.Prelude.{◌≡◌, ◌+◌, ◌-◌, ◌*◌, ◌/◌, ◌%◌, ◌^◌, ◌<◌, ◌≤◌, ◌==◌, nat_le};
ghost use Rattle.std.specs.Int.Count.{count_trailing_zeros};
ghost use Rattle.probe.specs.Counter.{level_of};
ghost use Rattle.probe.specs.Range.{draw_of, FirstIndex, origin_of, drawn_for, keyed_draw_of, domain_draw_of, elastic_reduce_of, funnel_reduce_of};
ghost use Rattle.probe.specs.declared.range.ReduceRefusal.TheVariants.{Range};

use crate::counter::{
    Domain, ELASTIC_LEVELS, ELASTIC_PROBES, ELASTIC_WORDS, FUNNEL_PROBES, FUNNEL_WORDS,
    domain_fits, elastic_base, funnel_base,
};
use crate::word::{FunnelKey, elastic_key, funnel_key, keyed_word};
use refusal::{Draw, RangeRefusal};
use words::place::LogicalProbe;
use words::power::two64_mod;
use words::product::{multiply, multiply_high};

// An index, and how many words were read for it.
#[derive(Clone, Copy)]
pub struct Index {
    pub index: u64,
    pub words: u64,
}

// Why the bare reduction gives no index.
#[derive(Clone, Copy)]
pub enum ReduceRefusal {
    Upper,
    Counter,
    Range(RangeRefusal),
}

impl From<RangeRefusal> for ReduceRefusal {
    ghost from_gives = { λ refusal gives. gives ≡ Range refusal };

    fn from(refusal: RangeRefusal) -> ReduceRefusal {
        ReduceRefusal::Range(refusal)
    }
}

// The draw of a domain.
impl From<Domain> for Draw {
    ghost from_gives = { λ domain gives. gives ≡ origin_of domain };

    fn from(domain: Domain) -> Draw {
        match domain {
            Domain::Ordinary { level } => Draw::Ordinary { level },
            Domain::Primary => Draw::Primary,
            Domain::FallbackA => Draw::FallbackA,
            Domain::FallbackB => Draw::FallbackB,
        }
    }
}

// An index below upper for an elastic probe, from at most cap words. The refusals are 8, 9 and 10 in that order.
pub fn elastic_reduce(
    seed: u64,
    identity: u64,
    level: u64,
    probe: LogicalProbe,
    upper: u64,
    cap: u64,
) -> Result<Index, ReduceRefusal>
    ensures { result ≡ elastic_reduce_of seed identity level probe.0 upper cap }
{
    if upper == 0 {
        return Err(ReduceRefusal::Upper);
    }
    if ELASTIC_LEVELS <= level || ELASTIC_PROBES <= probe.0 || ELASTIC_WORDS < cap {
        return Err(ReduceRefusal::Counter);
    }
    Ok(elastic_draw(elastic_key(seed, identity), level, probe, upper, cap)?)
}

// An index below upper for a funnel probe, from at most cap words. The refusals are 8, 9 and 10 in that order.
pub fn funnel_reduce(
    seed: u64,
    identity: u64,
    domain: Domain,
    probe: LogicalProbe,
    upper: u64,
    cap: u64,
) -> Result<Index, ReduceRefusal>
    ensures { result ≡ funnel_reduce_of seed identity domain probe.0 upper cap }
{
    if upper == 0 {
        return Err(ReduceRefusal::Upper);
    }
    if !domain_fits(domain) || FUNNEL_PROBES <= probe.0 || FUNNEL_WORDS < cap {
        return Err(ReduceRefusal::Counter);
    }
    let key = funnel_key(seed, identity);
    let base = funnel_base(domain, probe);
    Ok(told(
        draw(key.inner, key.outer, base, upper, cap),
        Draw::from(domain),
        probe,
    )?)
}

// The core for the elastic table, by the identity's key.
pub fn elastic_draw(
    key: u64,
    level: u64,
    probe: LogicalProbe,
    upper: u64,
    cap: u64,
) -> Result<Index, RangeRefusal>
    requires { (0 < upper) × (level < 32) × (probe.0 < 8192) × (cap ≤ 8) }
    ensures { result ≡ keyed_draw_of key level probe.0 upper cap }
{
    told(
        draw(key, key, elastic_base(level, probe), upper, cap),
        Draw::Elastic { level },
        probe,
    )
}

// The core for the funnel table, by the identity's key. Its lengths are seldom powers of two, so it keeps the product and asks nothing of
// the length.
pub fn funnel_draw(
    key: FunnelKey,
    domain: Domain,
    probe: LogicalProbe,
    upper: u64,
    cap: u64,
) -> Result<Index, RangeRefusal>
    requires { (0 < upper) × (level_of domain < 2 ^ 46) × (probe.0 < 256) × (cap ≤ 256) }
    ensures { result ≡ domain_draw_of key.inner key.outer domain probe.0 upper cap }
{
    told(
        draw_scaled(key.inner, key.outer, funnel_base(domain, probe), upper, cap),
        Draw::from(domain),
        probe,
    )
}

// What words gave, with the draw that they were for where they were rejected: the one place where RANGE is made.
fn told(trial: Result<Index, u64>, draw: Draw, probe: LogicalProbe) -> Result<Index, RangeRefusal>
    ensures { result ≡ drawn_for draw probe.0 trial }
{
    trial.map_err(|words| RangeRefusal { words, draw, probe })
}

// The index that the first word gives where it is accepted at once, else upper. For loops that leave the rest to `funnel_draw`.
// That upper stands for none is no plainer as an Option: the walks carry what this gives ahead, and test it against the length as any index.
pub fn first_index(key: FunnelKey, base: u64, upper: u64) -> u64
    requires { 0 < upper }
    ensures { FirstIndex key.inner key.outer base upper result }
{
    let word = keyed_word(key.inner, key.outer, base);
    if multiply(word, upper) < upper {
        return upper;
    }
    multiply_high(word, upper)
}

// For a power of two no word is rejected, and the top bits of the first are the index: "count the trailing zeros of the length, shift, and
// form no product".
fn draw(inner: u64, outer: u64, base: u64, upper: u64, cap: u64) -> Result<Index, u64>
    requires { (0 < upper) × (base + cap ≤ 2 ^ 64) }
    ensures { result ≡ draw_of inner outer base upper cap }
{
    if cap == 0 {
        return Err(0);
    }
    if is_power(upper) {
        let word = keyed_word(inner, outer, base);
        let index = top_bits(word, u64::trailing_zeros(upper) as u64);
        return Ok(Index { index, words: 1 });
    }
    draw_scaled(inner, outer, base, upper, cap)
}

// Whether u is a 1 shifted by its trailing zeros. In a function of its own three instructions are made of this.
fn is_power(u: u64) -> bool
    requires { 0 < u }
    ensures { result ≡ (2 ^ count_trailing_zeros 64 u == u) }
{
    1 << u64::trailing_zeros(u) as u64 == u
}

// So many top bits of a word. "Length 1 gives 0": no bits are left, and since no shift takes all 64 away there are two.
fn top_bits(word: u64, bits: u64) -> u64
    requires { bits < 64 }
    ensures { result ≡ word / 2 ^ (64 - bits) }
{
    word >> 1 >> (63 - bits)
}

// Word after word, until one is accepted: the high half of its product with upper is the index.
fn draw_scaled(inner: u64, outer: u64, base: u64, upper: u64, cap: u64) -> Result<Index, u64>
    requires { (0 < upper) × (base + cap ≤ 2 ^ 64) }
    ensures { result ≡ draw_of inner outer base upper cap }
{
    for used in 0..cap {
        let word = keyed_word(inner, outer, base + used);
        if accepts(multiply(word, upper), upper) {
            return Ok(Index {
                index: multiply_high(word, upper),
                words: used + 1,
            });
        }
    }
    Err(cap)
}

// Whether the low half of a word times u is at least 2^64 mod u. Most are at least u, and want no division.
fn accepts(low: u64, u: u64) -> bool
    requires { 0 < u }
    ensures { result ≡ nat_le (2 ^ 64 % u) low }
{
    if u <= low { true } else { two64_mod(u) <= low }
}
