// Many insertions into a valid table, the inner loop of a gridder. As in `funnel_insert`, a view is made for each search.
ghost use Rattle.std.specs.Prelude.{◌≡◌, ◌≤◌, length};
ghost use Rattle.funnel.specs.Insert.{with_count, settled_of, Settles, placed, place_all_of};
ghost use Rattle.funnel.specs.Valid.{Valid};

use funnel::table::{
    FunnelTable, InsertRefusal, PlaceRefusal, PlacedAll, Reached, Settled, Stop, slot_of,
    with_count,
};
use funnel::view::View;
use funnel_insert::insert::put;
use funnel_search::search::pass_levels;
use lent::store::Stored;

// For each identity the slot where it is or was put, up to the first refusal. Slots past that are left as they were.
pub fn place_all<E: Stored>(
    table: FunnelTable,
    counts: &[u64; 118],
    words: &mut [E],
    flags: &mut [u8],
    identities: &[E],
    slots: &mut [E],
) -> PlacedAll
    requires { Valid table counts.now (E.words words.old) flags.old × (length (E.words identities.now) ≤ length (E.words slots.old)) }
    ensures { placed result.answer result.table (E.words words.new) flags.new (E.words slots.new) ≡ place_all_of table counts.now (E.words words.old) flags.old (E.words identities.now) (E.words slots.old) }
{
    let mut count = table.count;
    let total = E::count(identities);
    for i in 0..total {
        let identity = E::word(identities, i);
        let settled = match settle(table, count, counts, words, flags, identity, i) {
            Ok(settled) => settled,
            Err(refusal) => {
                return PlacedAll {
                    answer: Err(refusal),
                    table: with_count(table, count),
                };
            }
        };
        match settled {
            Settled::Put { slot } => {
                E::put(slots, i, slot);
                count += 1;
            }
            Settled::There { slot } => E::put(slots, i, slot),
        }
    }
    PlacedAll {
        answer: Ok(()),
        table: with_count(table, count),
    }
}

// The insertion of the identity at an index, as far as a placement tells it. Nearly every identity is settled by its slots in
// the levels, and needs neither a place nor a count of probes; the others are inserted in full.
fn settle<E: Stored>(
    table: FunnelTable,
    count: u64,
    counts: &[u64; 118],
    words: &mut [E],
    flags: &mut [u8],
    identity: u64,
    index: u64,
) -> Result<Settled, PlaceRefusal>
    requires { Valid table counts.now (E.words words.old) flags.old × (count ≤ table.n) }
    ensures { Settles (with_count table count) counts.now (E.words words.old) flags.old identity index result (E.words words.new) flags.new }
{
    let maximum = table.plan.maximum;
    let view = View {
        table: &table,
        counts,
        words,
        flags,
    };
    match pass_levels(&view, identity) {
        Stop::Hit { slot } => Ok(Settled::There { slot }),
        Stop::Vacant { slot } => {
            if maximum <= count {
                return settled(put(table, count, counts, words, flags, identity), index);
            }
            E::put(words, slot, identity);
            let at = slot as usize;
            flags[at] = 1;
            Ok(Settled::Put { slot })
        }
        Stop::Nowhere => settled(put(table, count, counts, words, flags, identity), index),
    }
}

// An insertion's answer as a placement tells it.
pub fn settled(answer: Result<Reached, InsertRefusal>, index: u64) -> Result<Settled, PlaceRefusal>
    ensures { result ≡ settled_of answer index }
{
    match answer {
        Ok(put) => Ok(Settled::Put {
            slot: slot_of(put.place),
        }),
        Err(InsertRefusal::Duplicate { probes: _, place }) => Ok(Settled::There {
            slot: slot_of(place),
        }),
        Err(InsertRefusal::Range(refusal)) => Err(PlaceRefusal::Range { index, refusal }),
        Err(InsertRefusal::Exhausted { probes }) => Err(PlaceRefusal::Exhausted { index, probes }),
        Err(InsertRefusal::Full { probes }) => Err(PlaceRefusal::Full { index, probes }),
    }
}
