// Answers as text.
use refusal::{Gate, Name, RangeRefusal};
use std::fmt;
use std::fmt::Display;
use text::out::Out;
use words::place::Place;
use words::product::Wide;

// What a command or an operation is answered that is not carried out.
#[derive(Clone, Copy)]
pub enum Refusal {
    // It is no command.
    Unknown,
    // It is larger than the program holds.
    Large,
    Named(Name),
    // With a number.
    Valued(Name, u64),
    // COORD, with the letter of the coordinate.
    Coord(char),
    Duplicate { probes: u64, place: Place },
    Disorder { placed: u64, slot: u64 },
}

impl Refusal {
    // The row of the table of refusals, which those of the program do not have.
    pub(crate) fn name(self) -> Option<Name> {
        match self {
            Refusal::Unknown | Refusal::Large => None,
            Refusal::Named(name) | Refusal::Valued(name, _) => Some(name),
            Refusal::Coord(_) => Some(Name::Coord),
            Refusal::Duplicate { .. } => Some(Name::Duplicate),
            Refusal::Disorder { .. } => Some(Name::Disorder),
        }
    }
}

impl From<Gate> for Refusal {
    fn from(gate: Gate) -> Refusal {
        Refusal::Named(refusal::gate_name(gate))
    }
}

impl From<RangeRefusal> for Refusal {
    fn from(range: RangeRefusal) -> Refusal {
        Refusal::Valued(Name::Range, range.words)
    }
}

impl Display for Refusal {
    fn fmt<W: fmt::Write>(&self, f: &mut fmt::Formatter<W>) -> fmt::Result {
        match self.name() {
            Some(name) => write!(f, "R {}", refusal::number(name))?,
            None => {}
        }
        match self {
            Refusal::Unknown => write!(f, "?"),
            Refusal::Large => write!(f, "L"),
            Refusal::Named(_) => Ok(()),
            Refusal::Valued(_, value) => write!(f, " {value}"),
            Refusal::Coord(letter) => write!(f, " {letter}"),
            Refusal::Duplicate { probes, place } => write!(f, " {probes} {}", Spelt(*place)),
            Refusal::Disorder { placed, slot } => write!(f, " {placed} {slot}"),
        }
    }
}

// A place of a funnel table as a letter and numbers.
#[derive(Clone, Copy)]
pub struct Spelt(pub Place);

impl Display for Spelt {
    fn fmt<W: fmt::Write>(&self, f: &mut fmt::Formatter<W>) -> fmt::Result {
        match self.0 {
            Place::Ordinary {
                level,
                bucket,
                slot_in_bucket,
                global_slot,
            } => write!(f, "O {level} {bucket} {slot_in_bucket} {}", global_slot.0),
            Place::SpecialPrimary { slot, global_slot } => write!(f, "P {slot} {}", global_slot.0),
            Place::SpecialFallback {
                bucket,
                slot_in_bucket,
                global_slot,
            } => write!(f, "B {bucket} {slot_in_bucket} {}", global_slot.0),
        }
    }
}

// A number of two words, and one behind it where there is one.
#[derive(Clone, Copy)]
pub struct Numbers {
    pub first: Wide,
    pub second: Option<u64>,
}

impl From<u64> for Numbers {
    fn from(x: u64) -> Numbers {
        Numbers {
            first: Wide { hi: 0, lo: x },
            second: None,
        }
    }
}

impl From<Wide> for Numbers {
    fn from(x: Wide) -> Numbers {
        Numbers {
            first: x,
            second: None,
        }
    }
}

impl Display for Numbers {
    fn fmt<W: fmt::Write>(&self, f: &mut fmt::Formatter<W>) -> fmt::Result {
        let Wide { hi, lo } = self.first;
        write!(f, "{}", u128::from(hi) << 64 | u128::from(lo))?;
        match self.second {
            Some(x) => write!(f, " {x}"),
            None => Ok(()),
        }
    }
}

// An answer, or the refusal in its place.
pub fn put_answer<A: Display + Drop>(answer: Result<A, Refusal>, out: &mut Out) {
    match answer {
        Ok(done) => write!(out, "{done}"),
        Err(refused) => write!(out, "{refused}"),
    }
}

// What keeps a command from being carried out; nothing where it was.
pub fn put_refusal(answer: Result<(), Refusal>, out: &mut Out) {
    if let Err(refused) = answer {
        write!(out, "{refused}");
    }
}
