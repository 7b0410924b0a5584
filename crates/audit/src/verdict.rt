// The verdicts on the special slots. Once no ordinary slot is left to take, the ordinary part of a special member's path is read for the
// last time: only a member whose search goes on past it can ever be ready. Those are queued in the ordinary marks, since the searches
// along the special slots do not read these.
ghost use Rattle.std.specs.Prelude.{◌≡◌, ◌+◌, ◌≤◌, ◌<◌, length};
ghost use Rattle.audit.specs.Verdicts.{Judged, Offered};
ghost use Rattle.audit.specs.Viewed.{live_in};
ghost use Rattle.funnel.specs.Viewed.{slots_in, special_in};
ghost use Rattle.waiting.specs.Links.{space};

use funnel::table::Search;
use funnel::view::View;
use funnel_search::search::find_ordinary;
use lent::store::Stored;
use queue::keep::add;
use waiting::chain::clear;

// Gives a verdict on each special slot, in its own mark: 1 for a slot that is live.
pub fn judge<E: Stored>(view: &View<E>, marks: &mut [u8], start: u64)
    requires { (length marks.old ≡ slots_in view.now) × (start ≡ special_in view.now) }
    ensures { Judged (live_in view.now marks.old) start (slots_in view.now) marks.old marks.new }
{
    for slot in start..view.table.n {
        if is_live(view, marks, slot) {
            marks[slot as usize] = 1;
        } else {
            marks[slot as usize] = 0;
        }
    }
}

// Whether a slot is occupied, and its identity's search goes on past the ordinary slots.
fn is_live<E: Stored>(view: &View<E>, marks: &[u8], slot: u64) -> bool
    requires { (length marks.now ≡ slots_in view.now) × (slot < slots_in view.now) }
    ensures { result ≡ live_in view.now marks.now slot }
{
    if view.flags[slot as usize] == 0 {
        return false;
    }
    let identity = E::word(view.words, slot);
    let part = View {
        table: view.table,
        counts: view.counts,
        words: view.words,
        flags: marks,
    };
    match find_ordinary(&part, identity) {
        Search::Full { .. } => true,
        Search::Vacant { .. } | Search::Hit { .. } | Search::Range(_) => false,
    }
}

// Queues the special slots whose verdict is 1 by their numbers, and clears the special marks. No slot waits on another yet.
pub fn offer(marks: &mut [u8], start: u64, m: u64)
    requires { (length marks.old ≡ start + m) × (space m ≤ start) × (m < 4294967296) }
    ensures { Offered start m m marks.old marks.new }
{
    clear(marks, m);
    for number in 0..m {
        let at = (start + number) as usize;
        if marks[at] != 0 {
            marks[at] = 0;
            add(marks, 8 * m, m, number);
        }
    }
}
