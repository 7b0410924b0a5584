// Which slots are ready: an insertion of their identity into the placed part would be answered as inserted at that very slot. The
// placed part is the table with the marks for flags, so this is the search of the funnel.
ghost use Rattle.std.specs.Prelude.{◌≡◌, ◌<◌, length};
ghost use Rattle.audit.specs.Greedy.{vacant_at};
ghost use Rattle.audit.specs.Viewed.{ready_in};
ghost use Rattle.funnel.specs.Stop.{StopsAt};
ghost use Rattle.funnel.specs.Viewed.{find_in, slots_in};

use funnel::scan::pass;
use funnel::table::{Search, Stop, slot_of};
use funnel::view::View;
use funnel_search::search::{find, first_bucket};
use lent::store::Stored;
use probe::word::funnel_key;

// Whether a slot is ready, with some placed.
pub fn is_ready<E: Stored>(view: &View<E>, marks: &[u8], placed: u64, slot: u64) -> bool
    requires { (length marks.now ≡ slots_in view.now) × (slot < slots_in view.now) }
    ensures { result ≡ ready_in view.now marks.now placed slot }
{
    let s = slot as usize;
    if view.flags[s] == 0 {
        return false;
    }
    if marks[s] != 0 {
        return false;
    }
    if view.table.plan.maximum <= placed {
        return false;
    }
    let identity = E::word(view.words, slot);
    let part = View {
        table: view.table,
        counts: view.counts,
        words: view.words,
        flags: marks,
    };
    match pass_placed(&part, identity) {
        Stop::Vacant { slot: found } => found == slot,
        Stop::Hit { .. } => false,
        Stop::Nowhere => ends_at(&part, identity, slot),
    }
}

// The slot that the levels settle a search of the placed part with. This is the walk of `funnel_search::search::pass_levels` once more, since
// a walk is compiled into its caller only where it has no other, and both loops gain by that: with one walk for both, the placement was slower.
fn pass_placed<E: Stored>(part: &View<E>, identity: u64) -> Stop
    ensures { StopsAt result (find_in part.now identity) (Unit {0}) }
{
    let key = funnel_key(part.table.seed, identity);
    let alpha = part.table.plan.alpha;
    let beta = part.table.plan.beta;
    let mut start = 0;
    let mut bucket = first_bucket(key, part.counts, alpha, 0);
    for level in 0..alpha {
        let count = part.counts[level as usize];
        if count <= bucket {
            return Stop::Nowhere;
        }
        let ahead = first_bucket(key, part.counts, alpha, level + 1);
        let from = start + bucket * beta;
        match pass(part.words, part.flags, identity, from, beta) {
            Stop::Hit { slot } => return Stop::Hit { slot },
            Stop::Vacant { slot } => return Stop::Vacant { slot },
            Stop::Nowhere => {
                bucket = ahead;
                start += count * beta;
            }
        }
    }
    Stop::Nowhere
}

// Whether the search of the placed part ends vacant at a slot. For the few identities that first words in the levels do not settle.
fn ends_at<E: Stored>(part: &View<E>, identity: u64, slot: u64) -> bool
    ensures { result ≡ vacant_at slot (find_in part.now identity) }
{
    match find(part, identity) {
        Search::Vacant { place, .. } => slot_of(place) == slot,
        Search::Hit { .. } | Search::Full { .. } | Search::Range(_) => false,
    }
}
