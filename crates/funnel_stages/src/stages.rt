// The stages of a path by draws that can take further words, one function each.
ghost use Rattle.std.specs.Prelude.{◌≡◌, ◌*◌, ◌≤◌, ◌<◌, ◌^◌, length};
ghost use Rattle.probe.specs.Counter.{level_of};
ghost use Rattle.probe.specs.Range.{domain_draw_of};
ghost use Rattle.funnel.specs.Path.{primary_from, fallback_of};
ghost use Rattle.funnel.specs.Search.{search_of};
ghost use Rattle.funnel.specs.Valid.{Keyed, SpecialRoom};
ghost use Rattle.funnel.specs.Viewed.{levels_for};

use funnel::scan::{read, scan, scan_pairs};
use funnel::table::{FunnelTable, Search};
use funnel::view::Sought;
use lent::store::Stored;
use probe::counter::Domain;
use probe::range::{Index, funnel_draw};
use probe::word::FunnelKey;
use refusal::RangeRefusal;
use words::place::{GlobalSlot, LogicalProbe, Place};

// "per level one bucket, slots in order"
pub fn search_levels<E: Stored>(sought: &Sought<E>) -> Search
    ensures { result ≡ levels_for sought.now }
{
    let view = sought.view;
    let table = view.table;
    let alpha = table.plan.alpha;
    let beta = table.plan.beta;
    let mut start = 0;
    let mut probes = 0;
    for level in 0..alpha {
        let count = view.counts[level as usize];
        let cap = table.word_cap;
        match sample(
            sought.key,
            Domain::Ordinary { level },
            LogicalProbe(0),
            count,
            cap,
        ) {
            Err(refusal) => return Search::Range(refusal),
            Ok(bucket) => {
                let from = start + bucket.index * beta;
                let found = scan(
                    view.words,
                    view.flags,
                    sought.identity,
                    level,
                    bucket.index,
                    from,
                    beta,
                    probes,
                );
                let Search::Full { probes: read } = found else {
                    return found;
                };
                probes = read;
            }
        }
        start += count * beta;
    }
    Search::Full { probes }
}

// "then g primary probes", among the primary slots from `start` on, with some probes made before. It asks for room for these slots alone,
// which is less than a valid table, so it takes no view; nor does `search_fallback`.
pub fn search_primary<E: Stored>(
    table: &FunnelTable,
    start: u64,
    words: &[E],
    flags: &[u8],
    identity: u64,
    key: FunnelKey,
    probes: u64,
) -> Search
    requires { SpecialRoom table.now start table.now.plan.special_primary_len (length (E.words words.now)) (length flags.now) probes × Keyed table.now.seed identity key }
    ensures { result ≡ search_of (E.words words.now) flags.now identity (primary_from table.now.plan start table.now.seed table.now.word_cap identity 0 table.now.plan.loglog_ceiling) probes }
{
    let primary_len = table.plan.special_primary_len;
    let loglog_ceiling = table.plan.loglog_ceiling;
    let mut made = probes;
    for probe in 0..loglog_ceiling {
        let cap = table.word_cap;
        match sample(key, Domain::Primary, LogicalProbe(probe), primary_len, cap) {
            Err(refusal) => return Search::Range(refusal),
            Ok(drew) => {
                let at = start + drew.index;
                let place = Place::SpecialPrimary {
                    slot: drew.index,
                    global_slot: GlobalSlot(at),
                };
                let found = read(words, flags, identity, place, at, made);
                let Search::Full { probes: now_made } = found else {
                    return found;
                };
                made = now_made;
            }
        }
    }
    Search::Full { probes: made }
}

// "then buckets A and B both sampled, slot by slot, A before B", among the fallback buckets from `start` on
pub fn search_fallback<E: Stored>(
    table: &FunnelTable,
    start: u64,
    words: &[E],
    flags: &[u8],
    identity: u64,
    key: FunnelKey,
    probes: u64,
) -> Search
    requires { SpecialRoom table.now start (table.now.plan.fallback_bucket_count * table.now.plan.fallback_bucket_width) (length (E.words words.now)) (length flags.now) probes × Keyed table.now.seed identity key }
    ensures { result ≡ search_of (E.words words.now) flags.now identity (fallback_of table.now.plan start table.now.seed table.now.word_cap identity) probes }
{
    let buckets = table.plan.fallback_bucket_count;
    let width = table.plan.fallback_bucket_width;
    let cap = table.word_cap;
    let a = match sample(key, Domain::FallbackA, LogicalProbe(0), buckets, cap) {
        Err(refusal_a) => return Search::Range(refusal_a),
        Ok(a) => a.index,
    };
    let b = match sample(key, Domain::FallbackB, LogicalProbe(0), buckets, cap) {
        Err(refusal_b) => return Search::Range(refusal_b),
        Ok(b) => b.index,
    };
    let at_a = start + a * width;
    let at_b = start + b * width;
    scan_pairs(words, flags, identity, a, b, at_a, at_b, width, probes)
}

// An index below upper, by the key of an identity: the Rust's `sample`.
pub fn sample(
    key: FunnelKey,
    domain: Domain,
    probe: LogicalProbe,
    upper: u64,
    cap: u64,
) -> Result<Index, RangeRefusal>
    requires { (level_of domain < 2 ^ 46) × (probe.0 < 256) × (0 < upper) × (cap ≤ 256) }
    ensures { result ≡ domain_draw_of key.inner key.outer domain probe.0 upper cap }
{
    funnel_draw(key, domain, probe, upper, cap)
}
