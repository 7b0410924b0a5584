// What an insertion or a query is answered.
use elastic_query::query::{Finding, QueryRefusal};
use elastic_steps::answer::{Case, InsertRefusal, Insertion};
use refusal::Name;
use script::print::Refusal;
use std::fmt;
use std::fmt::Display;

#[derive(Clone, Copy)]
pub enum Done {
    Inserted(Insertion),
    Found(Finding),
}

impl Display for Done {
    fn fmt<W: fmt::Write>(&self, f: &mut fmt::Formatter<W>) -> fmt::Result {
        match self {
            Done::Inserted(insertion) => {
                let location = insertion.location;
                write!(f, "I {} {}", Numbered(insertion.case), location.level)?;
                write!(
                    f,
                    " {} {}",
                    location.slot_in_level.0, location.global_slot.0
                )?;
                write!(f, " {} {}", insertion.paper_probe.0, insertion.phi)
            }
            Done::Found(found) => {
                write!(f, "Q {} {}", found.position, found.global_slot.0)?;
                write!(f, " {} {} {}", found.mapped, found.gap, found.words)
            }
        }
    }
}

// A case as a number, its batch, free slots and budget; numbers that a case does not have are 0.
#[derive(Clone, Copy)]
struct Numbered(Case);

impl Display for Numbered {
    fn fmt<W: fmt::Write>(&self, f: &mut fmt::Formatter<W>) -> fmt::Result {
        match self.0 {
            Case::Batch0 { .. } => write!(f, "0 0 0 0 0"),
            Case::Case1 {
                batch,
                free_current,
                free_next,
                budget,
                ..
            } => write!(f, "1 {batch} {free_current} {free_next} {budget}"),
            Case::Case2 {
                batch,
                free_current,
                free_next,
                ..
            } => write!(f, "2 {batch} {free_current} {free_next} 0"),
            Case::Case3 {
                batch,
                free_current,
                free_next,
                ..
            } => write!(f, "3 {batch} {free_current} {free_next} 0"),
        }
    }
}

pub(crate) fn insert_refusal(refused: InsertRefusal) -> Refusal {
    match refused {
        InsertRefusal::Gate(gate) => Refusal::from(gate),
        InsertRefusal::Duplicate(slot) => Refusal::Valued(Name::Duplicate, slot.0),
        InsertRefusal::Exhausted => Refusal::Named(Name::Exhausted),
        InsertRefusal::Schedule => Refusal::Named(Name::Schedule),
        InsertRefusal::Range(range) => Refusal::from(range),
        InsertRefusal::Search => Refusal::Named(Name::Search),
        InsertRefusal::Position => Refusal::Named(Name::Position),
    }
}

pub(crate) fn query_refusal(refused: QueryRefusal) -> Refusal {
    match refused {
        QueryRefusal::Range(range) => Refusal::from(range),
        QueryRefusal::Absent => Refusal::Named(Name::Absent),
        QueryRefusal::Gate(gate) => Refusal::from(gate),
    }
}
