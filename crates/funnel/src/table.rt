// The state of a funnel table, and what its calls answer.
ghost use Rattle.std.specs.Prelude.{◌≡◌};
ghost use Rattle.funnel.specs.Path.{slot_of};
ghost use Rattle.funnel.specs.Insert.{with_count};

use geometry::funnel::FunnelPlan;
use refusal::RangeRefusal;
use words::place::Place;

// A table of n slots with reserve 2^-e. Its words, its flags and the counts of its levels are lent beside it.
#[derive(Clone, Copy)]
pub struct FunnelTable {
    pub n: u64,
    pub e: u32,
    pub seed: u64,
    pub word_cap: u64,
    pub count: u64,
    pub plan: FunnelPlan,
}

// What a search along a path, or along a part of one, comes to. Not a Result: a hit, a vacancy and a path without either are each a success.
#[derive(Clone, Copy)]
pub enum Search {
    Hit { probes: u64, place: Place },
    Vacant { probes: u64, place: Place },
    Full { probes: u64 },
    Range(RangeRefusal),
}

// Where a search stops, as far as slots go: at a slot that holds the identity, at a vacant one, or nowhere among those passed. Two kinds of slot, so
// not an Option.
#[derive(Clone, Copy)]
pub enum Stop {
    Hit { slot: u64 },
    Vacant { slot: u64 },
    Nowhere,
}

// Where a bucket stops a search: at the slot with an index in it, or nowhere. Not an Option either.
#[derive(Clone, Copy)]
pub enum Halt {
    Hit { index: u64 },
    Vacant { index: u64 },
    Nowhere,
}

// Where a walk over the levels by first words ends: at a slot, told by level, bucket, the bucket's first slot and the index in it; past
// them all; or before a level whose first word is rejected. Four ends, each of which goes on in its own way: no Option, no Result.
#[derive(Clone, Copy)]
pub enum Walk {
    Hit(u64, u64, u64, u64),
    Vacant(u64, u64, u64, u64),
    Past,
    Unsettled,
}

// The place where an identity is put, and how many probes it took to reach it.
#[derive(Clone, Copy)]
pub struct Reached {
    pub probes: u64,
    pub place: Place,
}

// Why an identity is not inserted into a valid table.
#[derive(Clone, Copy)]
pub enum InsertRefusal {
    Range(RangeRefusal),
    Duplicate { probes: u64, place: Place },
    Exhausted { probes: u64 },
    Full { probes: u64 },
}

// The answer of an insertion and the table after it.
#[derive(Clone, Copy)]
pub struct Step {
    pub answer: Result<Reached, InsertRefusal>,
    pub table: FunnelTable,
}

// Why many identities are not all placed: the first refusal, with its index.
#[derive(Clone, Copy)]
pub enum PlaceRefusal {
    Range { index: u64, refusal: RangeRefusal },
    Exhausted { index: u64, probes: u64 },
    Full { index: u64, probes: u64 },
}

// The slot of one identity to a placement: where it was put, or where it is already.
#[derive(Clone, Copy)]
pub enum Settled {
    Put { slot: u64 },
    There { slot: u64 },
}

// The answer of a placement and the table after it.
#[derive(Clone, Copy)]
pub struct PlacedAll {
    pub answer: Result<(), PlaceRefusal>,
    pub table: FunnelTable,
}

// The table with another count.
pub fn with_count(table: FunnelTable, count: u64) -> FunnelTable
    ensures { result ≡ with_count table count }
{
    let mut next = table;
    next.count = count;
    next
}

// The global slot of a place, as a number.
pub fn slot_of(place: Place) -> u64
    ensures { result ≡ slot_of place }
{
    match place {
        Place::Ordinary {
            level: _,
            bucket: _,
            slot_in_bucket: _,
            global_slot,
        } => global_slot.0,
        Place::SpecialPrimary {
            slot: _,
            global_slot,
        } => global_slot.0,
        Place::SpecialFallback {
            bucket: _,
            slot_in_bucket: _,
            global_slot,
        } => global_slot.0,
    }
}
