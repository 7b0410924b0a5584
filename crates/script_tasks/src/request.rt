// A command on a funnel table, taken apart: what the table is opened with, what is asked of it, and what is answered where
// no table is opened.
use crate::bytes::are_bytes;
use crate::entries::are_entries;
use refusal::Name;
use script::operation::{Kind, Operations};
use script::print::Refusal;
use script::request::{Form, Opening, opening_gate, opening_of, operations_of};
use text::field::Fields;

// The largest ROOM.
const MOST_ROOM: u64 = 1048576;

// The commands on a funnel table.
#[derive(Clone, Copy)]
pub enum Verb {
    Run(Form),
    Load,
    Write,
    Check,
}

// What is asked of a table. The bytes of an image and of a label are pairs of digits.
#[derive(Clone, Copy)]
pub enum Task<'a> {
    Run(Operations<'a>),
    Load {
        image: &'a [u8],
    },
    Write {
        label: &'a [u8],
        room: u64,
        entries: Fields<'a>,
    },
    Check {
        count: u64,
        entries: Fields<'a>,
    },
}

// A command, with what its table is opened with.
#[derive(Clone, Copy)]
pub struct Asked<'a> {
    pub opening: Opening,
    pub task: Task<'a>,
}

// n e seed cap, and then what a task has; or what is answered in its place.
pub fn asked_by(verb: Verb, fields: Fields) -> Result<Asked, Refusal> {
    let asked = command_of(verb, fields).ok_or(Refusal::Unknown)?;
    gate(asked)?;
    Ok(asked)
}

fn command_of(verb: Verb, mut fields: Fields) -> Option<Asked> {
    let opening = opening_of(&mut fields)?;
    let task = match verb {
        Verb::Run(form) => Task::Run(operations_of(form, fields, Kind::Funnel, opening.n)?),
        Verb::Load => load_of(fields)?,
        Verb::Write => write_of(fields, opening.n)?,
        Verb::Check => check_of(fields, opening.n)?,
    };
    Some(Asked { opening, task })
}

// HEX: the image is the rest of the line.
fn load_of(fields: Fields) -> Option<Task> {
    let image = fields.last()?;
    if are_bytes(image) {
        Some(Task::Load { image })
    } else {
        None
    }
}

// LABELHEX ROOM ENTRIES. A long label is refused whatever the room is.
fn write_of(mut fields: Fields, n: u64) -> Option<Task> {
    let label = fields.next()?;
    let room = fields.number()?;
    if are_bytes(label) && are_entries(fields, n) {
        Some(Task::Write {
            label,
            room: if is_long(label) { 0 } else { room },
            entries: fields,
        })
    } else {
        None
    }
}

// COUNT ENTRIES
fn check_of(mut fields: Fields, n: u64) -> Option<Task> {
    let count = fields.number()?;
    if are_entries(fields, n) {
        Some(Task::Check {
            count,
            entries: fields,
        })
    } else {
        None
    }
}

// What keeps a command from being carried out here. LIMITS, for a long label, comes before all about the size of the table and the
// room.
fn gate(asked: Asked) -> Result<(), Refusal> {
    let opened = opening_gate(asked.opening);
    let Task::Write { label, room, .. } = asked.task else {
        return opened;
    };
    match opened {
        Err(Refusal::Large) if is_long(label) => Err(Refusal::Named(Name::Limits)),
        Ok(()) if MOST_ROOM < room => Err(Refusal::Large),
        _ => opened,
    }
}

// Whether a label's field spells more than 64 bytes.
fn is_long(label: &[u8]) -> bool {
    128 < label.len()
}
