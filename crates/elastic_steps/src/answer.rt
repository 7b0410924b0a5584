// What an insertion answers, as the Rust tells it, and what its steps choose.
ghost use Rattle.std.specs.Prelude.{◌≡◌};
ghost use Rattle.elastic_steps.specs.declared.answer.InsertRefusal.TheVariants as refusal;

use elastic::state::State;
use refusal::{Gate, RangeRefusal};
use words::place::{GlobalSlot, LevelSlot, LogicalProbe, PaperProbe};

// Which rule placed an identity, with the levels, free slots and budget that it saw: the Rust's `ElasticCase`.
#[derive(Clone, Copy)]
pub enum Case {
    Batch0 {
        level: u64,
    },
    Case1 {
        batch: u64,
        current_level: u64,
        next_level: u64,
        free_current: u64,
        free_next: u64,
        budget: u64,
    },
    Case2 {
        batch: u64,
        current_level: u64,
        next_level: u64,
        free_current: u64,
        free_next: u64,
    },
    Case3 {
        batch: u64,
        current_level: u64,
        next_level: u64,
        free_current: u64,
        free_next: u64,
    },
}

// A slot of a level: the Rust's `ScalarElasticLocation`.
#[derive(Clone, Copy)]
pub struct Location {
    pub level: u64,
    pub slot_in_level: LevelSlot,
    pub global_slot: GlobalSlot,
}

// How an identity went in: the Rust's `ScalarElasticInsertion`.
#[derive(Clone, Copy)]
pub struct Insertion {
    pub case: Case,
    pub location: Location,
    pub paper_probe: PaperProbe,
    pub phi: u64,
}

// The refusals of an insertion.
#[derive(Clone, Copy)]
pub enum InsertRefusal {
    Gate(Gate),
    Duplicate(GlobalSlot),
    Exhausted,
    Schedule,
    Range(RangeRefusal),
    Search,
    Position,
}

impl From<Gate> for InsertRefusal {
    ghost from_gives = { λ gate gives. gives ≡ refusal.Gate gate };

    fn from(gate: Gate) -> InsertRefusal {
        InsertRefusal::Gate(gate)
    }
}

impl From<RangeRefusal> for InsertRefusal {
    ghost from_gives = { λ range gives. gives ≡ refusal.Range range };

    fn from(refusal: RangeRefusal) -> InsertRefusal {
        InsertRefusal::Range(refusal)
    }
}

// The answer, and the state after it.
#[derive(Clone, Copy)]
pub struct Inserted {
    pub answer: Result<Insertion, InsertRefusal>,
    pub st: State,
}

// The slot that the steps choose, before its position is held against the cap.
#[derive(Clone, Copy)]
pub struct Choice {
    pub case: Case,
    pub level: u64,
    pub slot: u64,
    pub probe: LogicalProbe,
}
