// Insertion into a valid table. Its words and flags are lent to be written, so they come one by one, and a view is made for the search.
ghost use Rattle.std.specs.Prelude.{◌≡◌, ◌≤◌};
ghost use Rattle.funnel.specs.Insert.{done, with_count, stepped, insert_of};
ghost use Rattle.funnel.specs.Valid.{Valid};

use funnel::table::{FunnelTable, InsertRefusal, Reached, Search, Step, slot_of};
use funnel::view::View;
use funnel_search::search::find;
use lent::store::Stored;

// The insertion of an identity: at the first vacancy of its path, unless it is there already.
pub fn insert<E: Stored>(
    table: FunnelTable,
    counts: &[u64; 118],
    words: &mut [E],
    flags: &mut [u8],
    identity: u64,
) -> Step
    requires { Valid table counts.now (E.words words.old) flags.old }
    ensures { done result.answer result.table (E.words words.new) flags.new ≡ insert_of table counts.now (E.words words.old) flags.old identity }
{
    let count = table.count;
    let answer = put(table, count, counts, words, flags, identity);
    let Ok(_) = answer else {
        return Step { answer, table };
    };
    let mut next = table;
    next.count = count + 1;
    Step {
        answer,
        table: next,
    }
}

// The insertion into the table with another count, so that a loop over many identities carries a number and no table.
pub fn put<E: Stored>(
    table: FunnelTable,
    count: u64,
    counts: &[u64; 118],
    words: &mut [E],
    flags: &mut [u8],
    identity: u64,
) -> Result<Reached, InsertRefusal>
    requires { Valid table counts.now (E.words words.old) flags.old × (count ≤ table.n) }
    ensures { done result (stepped result (with_count table count)) (E.words words.new) flags.new ≡ insert_of (with_count table count) counts.now (E.words words.old) flags.old identity }
{
    let maximum = table.plan.maximum;
    let view = View {
        table: &table,
        counts,
        words,
        flags,
    };
    match find(&view, identity) {
        Search::Hit { probes, place } => Err(InsertRefusal::Duplicate { probes, place }),
        Search::Range(refusal) => Err(InsertRefusal::Range(refusal)),
        Search::Full { probes } => {
            if maximum <= count {
                return Err(InsertRefusal::Exhausted { probes });
            }
            Err(InsertRefusal::Full { probes })
        }
        Search::Vacant { probes, place } => {
            if maximum <= count {
                return Err(InsertRefusal::Exhausted { probes });
            }
            let slot = slot_of(place);
            E::put(words, slot, identity);
            let at = slot as usize;
            flags[at] = 1;
            Ok(Reached { probes, place })
        }
    }
}
