// Positions that are counted apart, each a type of its own so that no two can be mixed up.

// A slot counted from the start of its level.
#[derive(Clone, Copy, Debug, PartialEq, Eq)]
pub struct LevelSlot(pub u64);

// A slot counted from the start of the table.
#[derive(Clone, Copy, Debug, PartialEq, Eq)]
pub struct GlobalSlot(pub u64);

// A probe as the paper counts, from 1.
#[derive(Clone, Copy, Debug, PartialEq, Eq)]
pub struct PaperProbe(pub u64);

// A probe as the counters count, from 0.
#[derive(Clone, Copy, Debug, PartialEq, Eq)]
pub struct LogicalProbe(pub u64);

// Where a cell of a funnel table sits: the Rust's `ScalarFunnelLocation`.
#[derive(Clone, Copy, Debug, PartialEq, Eq)]
pub enum Place {
    Ordinary {
        level: u64,
        bucket: u64,
        slot_in_bucket: u64,
        global_slot: GlobalSlot,
    },
    SpecialPrimary {
        slot: u64,
        global_slot: GlobalSlot,
    },
    SpecialFallback {
        bucket: u64,
        slot_in_bucket: u64,
        global_slot: GlobalSlot,
    },
}
