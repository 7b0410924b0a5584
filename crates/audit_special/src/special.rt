// The turns in the special part. A member that is live is a candidate: it is looked at when it is the smallest. One whose search ends vacant at
// another slot is filed under that slot, and is a candidate again when that slot is placed; the search of any other that is not ready
// ends where it will always end.
ghost use Rattle.std.specs.Prelude.{◌≡◌, ◌<◌};
ghost use Rattle.audit.specs.Special.{special_path};
ghost use Rattle.audit.specs.Waits.{special_end, vacancy_of, Begun, Finished, Chosen, Turned};
ghost use Rattle.funnel.specs.Path.{primary_start};
ghost use Rattle.funnel.specs.Search.{search_of};
ghost use Rattle.funnel.specs.Valid.{Valid};
ghost use Rattle.funnel.specs.Viewed.{slots_in, special_in};
ghost use Rattle.waiting.specs.Links.{Fits};

use funnel::table::{FunnelTable, Search, slot_of};
use funnel::view::View;
use funnel_stages::stages::{search_fallback, search_primary};
use lent::store::Stored;
use probe::word::funnel_key;
use queue::keep::{remove, smallest};
use waiting::chain::{file, wake};

// Takes the smallest ready slot of the special part, which starts at `start`, again and again: how many are placed then. The ordinary
// marks hold the candidates and those that wait. No view: the marks stand for the flags and are written, so one is made for each look.
pub fn take_live<E: Stored>(
    table: &FunnelTable,
    counts: &[u64; 118],
    words: &[E],
    flags: &[u8],
    marks: &mut [u8],
    order: &mut [E],
    start: u64,
    before: u64,
) -> u64
    requires { Valid table.now counts.now (E.words words.now) marks.old × (start ≡ primary_start table.now.plan counts.now) × Begun table.now counts.now (E.words words.now) flags.now start table.now.plan.special_len marks.old (E.words order.old) before }
    ensures { Finished table.now counts.now (E.words words.now) flags.now start table.now.plan.special_len marks.old (E.words order.old) before (E.words order.new) result }
{
    let n = table.n;
    let m = table.plan.special_len;
    // No range: `placed` is the answer too, where no candidate is ready and where no slot is left.
    let mut placed = before;
    while placed < n {
        let Some(slot) = next_live(table, counts, words, marks, placed, start) else {
            return placed;
        };
        let number = slot - start;
        wake(marks, m, number);
        marks[slot as usize] = 1;
        remove(marks, 8 * m, m, number);
        E::put(order, placed, slot);
        placed += 1;
    }
    placed
}

// The smallest candidate that is ready. Those before it are candidates no longer: they are filed, or can never be ready.
fn next_live<E: Stored>(
    table: &FunnelTable,
    counts: &[u64; 118],
    words: &[E],
    marks: &mut [u8],
    placed: u64,
    start: u64,
) -> Option<u64>
    requires { Valid table.now counts.now (E.words words.now) marks.old × (start ≡ primary_start table.now.plan counts.now) × Fits marks.old table.now.plan.special_len }
    ensures { Turned table.now (E.words words.now) start table.now.plan.special_len marks.old marks.new × Chosen table.now (E.words words.now) start table.now.plan.special_len placed marks.old marks.new result }
{
    if table.plan.maximum <= placed {
        return None;
    }
    let m = table.plan.special_len;
    while let Some(number) = smallest(marks, 8 * m, m) {
        let slot = start + number;
        let part = View {
            table,
            counts,
            words,
            flags: marks,
        };
        match vacancy(&part, start, slot) {
            None => remove(marks, 8 * m, m, number),
            Some(end) => {
                if end == slot {
                    return Some(slot);
                }
                file(marks, m, number, end - start);
            }
        }
    }
    None
}

// The slot at which the search of a special slot's identity along the special slots ends vacant.
fn vacancy<E: Stored>(part: &View<E>, start: u64, slot: u64) -> Option<u64>
    requires { (start ≡ special_in part.now) × (slot < slots_in part.now) }
    ensures { result ≡ vacancy_of (special_end part.now.table.now (E.words part.now.words.now) part.now.flags.now start slot) }
{
    let identity = E::word(part.words, slot);
    match find_special(part, start, identity) {
        Search::Vacant { place, .. } => Some(slot_of(place)),
        Search::Hit { .. } | Search::Full { .. } | Search::Range(_) => None,
    }
}

// The search for an identity along the special slots alone, with no probe made before.
fn find_special<E: Stored>(part: &View<E>, start: u64, identity: u64) -> Search
    requires { start ≡ special_in part.now }
    ensures { result ≡ search_of (E.words part.now.words.now) part.now.flags.now identity (special_path part.now.table.now start identity) 0 }
{
    let table = part.table;
    let key = funnel_key(table.seed, identity);
    let primary = search_primary(table, start, part.words, part.flags, identity, key, 0);
    let Search::Full { probes } = primary else {
        return primary;
    };
    let fallback_start = start + table.plan.special_primary_len;
    search_fallback(
        table,
        fallback_start,
        part.words,
        part.flags,
        identity,
        key,
        probes,
    )
}
