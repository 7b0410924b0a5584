// Refusals: the numbers of 01's table, once.
//
// Each call that can refuse answers a Result, whose error is an enum of just the refusals that the call can give, with
// their values. What these share is here: the names with their numbers, the refusals 1 to 7 that calls on a table test
// first, and the refusal of a range reduction, which every caller hands on unchanged. A definition `report_of` beside
// each answer gives a case its number, by `number_of`, and its values.

#![tactic(auto)]

ghost use Rattle.std.specs.Prelude.{◌≡◌};
ghost use Rattle.refusal.specs.Draw.{domain_of, draw_level_of};
ghost use Rattle.refusal.specs.Table.{number_of, name_of};

use words::place::LogicalProbe;

// The rows of the table, in its order.
#[derive(Clone, Copy, Debug, PartialEq, Eq)]
pub enum Name {
    N,
    ZeroExp,
    Size,
    Exponent,
    Layout,
    Limits,
    State,
    Upper,
    Counter,
    Range,
    Coord,
    Overflow,
    Gap,
    Budget,
    Duplicate,
    Exhausted,
    Schedule,
    Search,
    Position,
    Full,
    Absent,
    Dirty,
    Disorder,
    Image,
    Foreign,
    Room,
    None,
}

// The refusals that are tested first, in this order, by every call on a table.
#[derive(Clone, Copy, Debug, PartialEq, Eq)]
pub enum Gate {
    N,
    ZeroExp,
    Size,
    Exponent,
    Layout,
    Limits,
    State,
}

// What an index was drawn for: a bucket of an ordinary level, a primary slot, a fallback bucket A or B, or a slot of an elastic level. Only what
// has a level carries one.
#[derive(Clone, Copy, Debug, PartialEq, Eq)]
pub enum Draw {
    Ordinary { level: u64 },
    Primary,
    FallbackA,
    FallbackB,
    Elastic { level: u64 },
}

// All allowed words were rejected: how many these were, and which draw they were for. It is made in the reductions alone, and every caller
// hands it on as it is.
#[derive(Clone, Copy, Debug, PartialEq, Eq)]
pub struct RangeRefusal {
    pub words: u64,
    pub draw: Draw,
    pub probe: LogicalProbe,
}

// The row of a refusal of the gate. A function by name and no From: each caller hands its answer to `number`, and would say `Name::from` for it.
#[tactic(auto, unfolding(crate::specs::Table::name_of))]
pub fn gate_name(gate: Gate) -> Name
    ensures { result ≡ name_of gate }
{
    match gate {
        Gate::N => Name::N,
        Gate::ZeroExp => Name::ZeroExp,
        Gate::Size => Name::Size,
        Gate::Exponent => Name::Exponent,
        Gate::Layout => Name::Layout,
        Gate::Limits => Name::Limits,
        Gate::State => Name::State,
    }
}

// The number of a draw's domain. A number and no From, as of a row below: it is what C and the programs are told.
#[tactic(auto, unfolding(crate::specs::Draw::domain_of))]
pub fn domain_number(draw: Draw) -> u64
    ensures { result ≡ domain_of draw }
{
    match draw {
        Draw::Ordinary { level: _ } => 0,
        Draw::Primary => 1,
        Draw::FallbackA => 2,
        Draw::FallbackB => 3,
        Draw::Elastic { level: _ } => 4,
    }
}

// The level of a draw, 0 where it has none: what is told of a draw is numbers.
#[tactic(auto, unfolding(crate::specs::Draw::draw_level_of))]
pub fn draw_level(draw: Draw) -> u64
    ensures { result ≡ draw_level_of draw }
{
    match draw {
        Draw::Ordinary { level } | Draw::Elastic { level } => level,
        Draw::Primary | Draw::FallbackA | Draw::FallbackB => 0,
    }
}

// The number of a row: what C and the programs are told.
#[tactic(auto, unfolding(crate::specs::Table::number_of))]
pub fn number(name: Name) -> u64
    ensures { result ≡ number_of name }
{
    match name {
        Name::N => 1,
        Name::ZeroExp => 2,
        Name::Size => 3,
        Name::Exponent => 4,
        Name::Layout => 5,
        Name::Limits => 6,
        Name::State => 7,
        Name::Upper => 8,
        Name::Counter => 9,
        Name::Range => 10,
        Name::Coord => 11,
        Name::Overflow => 12,
        Name::Gap => 13,
        Name::Budget => 14,
        Name::Duplicate => 15,
        Name::Exhausted => 16,
        Name::Schedule => 17,
        Name::Search => 18,
        Name::Position => 19,
        Name::Full => 20,
        Name::Absent => 21,
        Name::Dirty => 22,
        Name::Disorder => 23,
        Name::Image => 24,
        Name::Foreign => 25,
        Name::Room => 26,
        Name::None => 27,
    }
}
