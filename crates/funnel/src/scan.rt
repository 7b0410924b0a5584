// Walks over slots: the innermost loops of every search. Only these, and the writes of an insertion, touch the buffers.
// Words and flags are two slices here, and no `View`: each walk asks for room in them alone, which is less than a valid table.
ghost use Rattle.std.specs.Prelude.{[], ◌∷◌, ◌≡◌, ◌+◌, ◌*◌, ◌%◌, ◌≤◌, ◌<◌, ◌^◌, length};
ghost use Rattle.funnel.specs.Path.{slot_of, run, bucket_from, pairs_from};
ghost use Rattle.funnel.specs.Search.{search_of};
ghost use Rattle.funnel.specs.Stop.{BucketStops, halt_of, Inside, Halts};

use crate::table::{Halt, Search, Stop};
use lent::store::Stored;
use words::place::{GlobalSlot, Place};

// The search along a bucket of w slots that starts at the slot `from`, for an even w, with some probes made before.
pub fn scan<E: Stored>(
    words: &[E],
    flags: &[u8],
    identity: u64,
    level: u64,
    bucket: u64,
    from: u64,
    w: u64,
    probes: u64,
) -> Search
    requires { (from + w ≤ length (E.words words.now)) × (from + w ≤ length flags.now) × (probes + w < 2 ^ 64) × (w % 2 ≡ 0) }
    ensures { result ≡ search_of (E.words words.now) flags.now identity (run (bucket_from level bucket from 0 w)) probes }
{
    let stop = halt(words, flags, identity, from, w);
    halted(stop, level, bucket, from, w, probes)
}

// What such a bucket answers a search with, by where it halts.
pub fn halted(halt: Halt, level: u64, bucket: u64, from: u64, w: u64, probes: u64) -> Search
    requires { Inside w halt × (from + w < 2 ^ 64) × (probes + w < 2 ^ 64) }
    ensures { result ≡ halt_of level bucket from w probes halt }
{
    match halt {
        Halt::Hit { index } => Search::Hit {
            probes: probes + index + 1,
            place: Place::Ordinary {
                level,
                bucket,
                slot_in_bucket: index,
                global_slot: GlobalSlot(from + index),
            },
        },
        Halt::Vacant { index } => Search::Vacant {
            probes: probes + index + 1,
            place: Place::Ordinary {
                level,
                bucket,
                slot_in_bucket: index,
                global_slot: GlobalSlot(from + index),
            },
        },
        Halt::Nowhere => Search::Full { probes: probes + w },
    }
}

// Where a bucket of w slots stops a search, for an even w: two slots a turn, no place and no count of probes. The loop holds an index and
// no slot, so that it needs few registers. It counts the index itself: over a range of pairs it was tried, and searches took 4 % longer.
pub fn halt<E: Stored>(words: &[E], flags: &[u8], identity: u64, from: u64, w: u64) -> Halt
    requires { (from + w ≤ length (E.words words.now)) × (from + w ≤ length flags.now) × (w % 2 ≡ 0) }
    ensures { Halts (E.words words.now) flags.now identity from w result }
{
    let mut i = 0;
    while i < w {
        let first = from + i;
        if flags[first as usize] == 0 {
            return Halt::Vacant { index: i };
        }
        if E::word(words, first) == identity {
            return Halt::Hit { index: i };
        }
        let second = from + i + 1;
        if flags[second as usize] == 0 {
            return Halt::Vacant { index: i + 1 };
        }
        if E::word(words, second) == identity {
            return Halt::Hit { index: i + 1 };
        }
        i += 2;
    }
    Halt::Nowhere
}

// The same by the slot.
pub fn pass<E: Stored>(words: &[E], flags: &[u8], identity: u64, from: u64, w: u64) -> Stop
    requires { (from + w ≤ length (E.words words.now)) × (from + w ≤ length flags.now) × (w % 2 ≡ 0) }
    ensures { BucketStops (E.words words.now) flags.now identity from w result }
{
    match halt(words, flags, identity, from, w) {
        Halt::Hit { index } => Stop::Hit { slot: from + index },
        Halt::Vacant { index } => Stop::Vacant { slot: from + index },
        Halt::Nowhere => Stop::Nowhere,
    }
}

// The reading of one place, whose slot is `at`, with some probes made before.
pub fn read<E: Stored>(
    words: &[E],
    flags: &[u8],
    identity: u64,
    place: Place,
    at: u64,
    probes: u64,
) -> Search
    requires { (slot_of place ≡ at) × (at < length (E.words words.now)) × (at < length flags.now) × (probes + 1 < 2 ^ 64) }
    ensures { result ≡ search_of (E.words words.now) flags.now identity (run (place ∷ [])) probes }
{
    let s = at as usize;
    if flags[s] == 0 {
        return Search::Vacant {
            probes: probes + 1,
            place,
        };
    }
    if E::word(words, at) == identity {
        return Search::Hit {
            probes: probes + 1,
            place,
        };
    }
    Search::Full { probes: probes + 1 }
}

// The search along the fallback buckets a and b of w slots that start at `at_a` and `at_b`: slot by slot, A before B.
pub fn scan_pairs<E: Stored>(
    words: &[E],
    flags: &[u8],
    identity: u64,
    a: u64,
    b: u64,
    at_a: u64,
    at_b: u64,
    w: u64,
    probes: u64,
) -> Search
    requires { (at_a + w ≤ length (E.words words.now)) × (at_b + w ≤ length (E.words words.now)) × (length (E.words words.now) ≡ length flags.now) × (probes + 2 * w < 2 ^ 64) }
    ensures { result ≡ search_of (E.words words.now) flags.now identity (run (pairs_from a b at_a at_b 0 w)) probes }
{
    let mut made = probes;
    for i in 0..w {
        let first = at_a + i;
        let place_a = Place::SpecialFallback {
            bucket: a,
            slot_in_bucket: i,
            global_slot: GlobalSlot(first),
        };
        let found_a = read(words, flags, identity, place_a, first, made);
        let Search::Full { probes: half } = found_a else {
            return found_a;
        };
        let second = at_b + i;
        let place_b = Place::SpecialFallback {
            bucket: b,
            slot_in_bucket: i,
            global_slot: GlobalSlot(second),
        };
        let found_b = read(words, flags, identity, place_b, second, half);
        let Search::Full { probes: both } = found_b else {
            return found_b;
        };
        made = both;
    }
    Search::Full { probes: made }
}
