// What an insertion or a search is answered.
use funnel::table::{InsertRefusal, Reached, Search};
use refusal::Name;
use script::print::{Refusal, Spelt};
use std::fmt;
use std::fmt::Display;
use words::place::Place;

// Where an identity went in, where a search hit it, and where it met a vacancy.
#[derive(Clone, Copy)]
pub enum Done {
    Inserted { probes: u64, place: Place },
    Hit { probes: u64, place: Place },
    Vacant { probes: u64, place: Place },
}

impl Display for Done {
    fn fmt<W: fmt::Write>(&self, f: &mut fmt::Formatter<W>) -> fmt::Result {
        match self {
            Done::Inserted { probes, place } => write!(f, "I {probes} {}", Spelt(*place)),
            Done::Hit { probes, place } => write!(f, "H {probes} {}", Spelt(*place)),
            Done::Vacant { probes, place } => write!(f, "V {probes} {}", Spelt(*place)),
        }
    }
}

pub(crate) fn inserted(reached: Reached) -> Done {
    Done::Inserted {
        probes: reached.probes,
        place: reached.place,
    }
}

pub(crate) fn insert_refusal(refused: InsertRefusal) -> Refusal {
    match refused {
        InsertRefusal::Duplicate { probes, place } => Refusal::Duplicate { probes, place },
        InsertRefusal::Range(range) => Refusal::from(range),
        InsertRefusal::Exhausted { probes } => Refusal::Valued(Name::Exhausted, probes),
        InsertRefusal::Full { probes } => Refusal::Valued(Name::Full, probes),
    }
}

pub(crate) fn searched(found: Search) -> Result<Done, Refusal> {
    match found {
        Search::Hit { probes, place } => Ok(Done::Hit { probes, place }),
        Search::Vacant { probes, place } => Ok(Done::Vacant { probes, place }),
        Search::Full { probes } => Err(Refusal::Valued(Name::Full, probes)),
        Search::Range(range) => Err(Refusal::from(range)),
    }
}
