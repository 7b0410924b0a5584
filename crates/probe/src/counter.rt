// Counters: the fields level, probe and retry, and for the funnel a tag, packed into one word by shifts.
// Elastic and funnel draws differ in keys, fields and limits, not in a type or a constant: so there are two of a function where both are drawn.
ghost use Rattle.std.specs.Prelude.{◌≡◌, ◌+◌, ◌*◌, ◌^◌, ◌<◌, nat_lt};
ghost use Rattle.probe.specs.Counter.{elastic_counter_of, elastic_packed_of, tag_of, level_of, funnel_counter_of, funnel_packed_of};

use words::place::LogicalProbe;

// "limits 32, 8192, 8"
pub const ELASTIC_LEVELS: u64 = 32;

pub const ELASTIC_PROBES: u64 = 8192;

pub const ELASTIC_WORDS: u64 = 8;

// "limits 2^46, 256, 256"
pub const FUNNEL_LEVELS: u64 = 0x4000_0000_0000;

pub const FUNNEL_PROBES: u64 = 256;

pub const FUNNEL_WORDS: u64 = 256;

// What a funnel's word is for. Only an ordinary one has a level, so that no special tag comes with one.
#[derive(Clone, Copy)]
pub enum Domain {
    Ordinary { level: u64 },
    Primary,
    FallbackA,
    FallbackB,
}

// "counter = level<<16, probe<<3, retry; limits 32, 8192, 8": none for a field beyond the packing.
pub fn elastic_counter(level: u64, probe: LogicalProbe, retry: u64) -> Option<u64>
    ensures { result ≡ elastic_packed_of level probe.0 retry }
{
    if ELASTIC_LEVELS <= level || ELASTIC_PROBES <= probe.0 || ELASTIC_WORDS <= retry {
        return None;
    }
    Some(elastic_base(level, probe) | retry)
}

// The counter of the first word of an elastic probe; those of its retries follow it.
pub fn elastic_base(level: u64, probe: LogicalProbe) -> u64
    requires { (level < 32) × (probe.0 < 8192) }
    ensures { result ≡ elastic_counter_of level probe.0 0 }
{
    (level << 16) | (probe.0 << 3)
}

// "counter = tag<<62, level<<16, probe<<8, retry; limits 2^46, 256, 256": none for a field beyond the packing.
pub fn funnel_counter(domain: Domain, probe: LogicalProbe, retry: u64) -> Option<u64>
    ensures { result ≡ funnel_packed_of domain probe.0 retry }
{
    if !domain_fits(domain) || FUNNEL_PROBES <= probe.0 || FUNNEL_WORDS <= retry {
        return None;
    }
    Some(funnel_base(domain, probe) | retry)
}

// The counter of the first word of a funnel probe; those of its retries follow it.
pub fn funnel_base(domain: Domain, probe: LogicalProbe) -> u64
    requires { (level_of domain < 2 ^ 46) × (probe.0 < 256) }
    ensures { result ≡ funnel_counter_of domain probe.0 0 }
{
    domain_base(domain) | (probe.0 << 8)
}

// Whether the level of a domain is below 2^46.
pub(crate) fn domain_fits(domain: Domain) -> bool
    ensures { result ≡ nat_lt (level_of domain) (2 ^ 46) }
{
    match domain {
        Domain::Ordinary { level } => level < FUNNEL_LEVELS,
        Domain::Primary => true,
        Domain::FallbackA => true,
        Domain::FallbackB => true,
    }
}

// Tag and level, in place.
fn domain_base(domain: Domain) -> u64
    requires { level_of domain < 2 ^ 46 }
    ensures { result ≡ tag_of domain * 2 ^ 62 + level_of domain * 2 ^ 16 }
{
    match domain {
        Domain::Ordinary { level } => level << 16,
        Domain::Primary => 1 << 62,
        Domain::FallbackA => 2 << 62,
        Domain::FallbackB => 3 << 62,
    }
}
