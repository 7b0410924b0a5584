// The search for an identity: along all of its path, and the levels alone by their first words.
ghost use Rattle.std.specs.Prelude.{◌≡◌, ℕ, ◌≤◌, ◌<◌, get_or};
ghost use Rattle.funnel.specs.Stop.{StopsAt, WalksTo, FirstAhead};
ghost use Rattle.funnel.specs.declared.table.Search.TheVariants.{Full};
ghost use Rattle.funnel.specs.Viewed.{find_in, levels_in, found_for, levels_for};

use funnel::scan::{halt, halted, pass};
use funnel::table::{Halt, Search, Stop, Walk};
use funnel::view::{Sought, View};
use funnel_stages::stages::{search_fallback, search_levels, search_primary};
use lent::store::Stored;
use probe::counter::{Domain, funnel_base};
use probe::range::first_index;
use probe::word::{FunnelKey, funnel_key};
use words::place::LogicalProbe;

// The search for an identity in a valid table. Nearly always the walk settles it, or leads past the levels; the stages that may take
// further words are calls, so that what the walk reads stays in registers.
pub fn find<E: Stored>(view: &View<E>, identity: u64) -> Search
    ensures { result ≡ find_in view.now identity }
{
    let key = funnel_key(view.table.seed, identity);
    let sought = Sought {
        view,
        identity,
        key,
    };
    let beta = view.table.plan.beta;
    match walk(&sought) {
        Walk::Hit(level, bucket, from, index) => {
            halted(Halt::Hit { index }, level, bucket, from, beta, level * beta)
        }
        Walk::Vacant(level, bucket, from, index) => halted(
            Halt::Vacant { index },
            level,
            bucket,
            from,
            beta,
            level * beta,
        ),
        Walk::Past => search_special(&sought, view.table.plan.alpha * beta),
        Walk::Unsettled => find_drawn(&sought),
    }
}

// The search along the ordinary part of an identity's path alone.
pub fn find_ordinary<E: Stored>(view: &View<E>, identity: u64) -> Search
    ensures { result ≡ levels_in view.now identity }
{
    let key = funnel_key(view.table.seed, identity);
    search_levels(&Sought {
        view,
        identity,
        key,
    })
}

// The search by draws that can take further words.
fn find_drawn<E: Stored>(sought: &Sought<E>) -> Search
    ensures { result ≡ found_for sought.now }
{
    let ordinary = search_levels(sought);
    let Search::Full { probes: read } = ordinary else {
        return ordinary;
    };
    search_special(sought, read)
}

// The search where the ordinary part of the path met neither the identity nor a vacancy.
fn search_special<E: Stored>(sought: &Sought<E>, probes: u64) -> Search
    requires { levels_for sought.now ≡ Full probes }
    ensures { result ≡ found_for sought.now }
{
    let view = sought.view;
    let table = view.table;
    let primary_start = table.n - table.plan.special_len;
    let primary = search_primary(
        table,
        primary_start,
        view.words,
        view.flags,
        sought.identity,
        sought.key,
        probes,
    );
    let Search::Full { probes: more } = primary else {
        return primary;
    };
    let fallback_start = primary_start + table.plan.special_primary_len;
    search_fallback(
        table,
        fallback_start,
        view.words,
        view.flags,
        sought.identity,
        sought.key,
        more,
    )
}

// The levels by first words, as `pass_levels` walks them, with the numbers of a place.
fn walk<E: Stored>(sought: &Sought<E>) -> Walk
    ensures { WalksTo sought.now.view.now.table.now.plan.alpha sought.now.view.now.table.now.plan.beta result (levels_for sought.now) }
{
    let view = sought.view;
    let words = view.words;
    let flags = view.flags;
    let identity = sought.identity;
    let key = sought.key;
    let alpha = view.table.plan.alpha;
    let beta = view.table.plan.beta;
    let mut start = 0;
    let mut bucket = first_bucket(key, view.counts, alpha, 0);
    for level in 0..alpha {
        let count = view.counts[level as usize];
        if count <= bucket {
            return Walk::Unsettled;
        }
        // The next level's bucket is drawn before this one is read, so that it is at hand when this one is full.
        let ahead = first_bucket(key, view.counts, alpha, level + 1);
        let from = start + bucket * beta;
        match halt(words, flags, identity, from, beta) {
            Halt::Hit { index } => {
                return Walk::Hit(level, bucket, from, index);
            }
            Halt::Vacant { index } => {
                return Walk::Vacant(level, bucket, from, index);
            }
            Halt::Nowhere => {
                bucket = ahead;
                start += count * beta;
            }
        }
    }
    Walk::Past
}

// The slot that the levels settle a search with. What first words do not settle is left to `find`.
pub fn pass_levels<E: Stored>(view: &View<E>, identity: u64) -> Stop
    ensures { StopsAt result (find_in view.now identity) (Unit {0}) }
{
    let key = funnel_key(view.table.seed, identity);
    let alpha = view.table.plan.alpha;
    let beta = view.table.plan.beta;
    let mut start = 0;
    let mut bucket = first_bucket(key, view.counts, alpha, 0);
    for level in 0..alpha {
        let count = view.counts[level as usize];
        if count <= bucket {
            return Stop::Nowhere;
        }
        // As in `walk`, the next level's bucket is drawn before this one is read, and each kind of stop has an arm.
        let ahead = first_bucket(key, view.counts, alpha, level + 1);
        let from = start + bucket * beta;
        match pass(view.words, view.flags, identity, from, beta) {
            Stop::Hit { slot } => return Stop::Hit { slot },
            Stop::Vacant { slot } => return Stop::Vacant { slot },
            Stop::Nowhere => {
                bucket = ahead;
                start += count * beta;
            }
        }
    }
    Stop::Nowhere
}

// The bucket of a level by its first word, where there is such a level; past the last one 0, and no Option, since nothing reads it there.
pub fn first_bucket(key: FunnelKey, counts: &[u64; 118], alpha: u64, level: u64) -> u64
    requires { (alpha ≤ 118) × ((k : ℕ) → k < alpha → 0 < get_or counts.now k 0) }
    ensures { FirstAhead key counts.now alpha level result }
{
    if alpha <= level {
        return 0;
    }
    first_index(
        key,
        funnel_base(Domain::Ordinary { level }, LogicalProbe(0)),
        counts[level as usize],
    )
}
