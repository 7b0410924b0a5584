// A verdict, as values and in words.
use crate::say::{Identity, put_gate};
use refusal::{Gate, Name};
use text::out::Out;

// What the check says of a table. No Result: each of the four is printed as it is, and none is handed on by `?`.
#[derive(Clone, Copy)]
pub enum Verdict {
    Accepted,
    Gate(Gate),
    Dirty { slot: u64 },
    Disorder(Stuck),
}

// Where the check is stuck: members placed, the smallest occupied slot that is not, what it holds, and what a search for that
// meets.
#[derive(Clone, Copy)]
pub struct Stuck {
    pub placed: u64,
    pub slot: u64,
    pub identity: u64,
    pub met: Met,
}

// What a search of the whole table for the unplaced identity meets.
#[derive(Clone, Copy)]
pub enum Met {
    Gate(Gate),
    Vacant { slot: u64 },
    // Neither a vacancy nor the identity: it read its whole path.
    OffPath,
    // All of these words were rejected.
    Range { words: u64 },
    // The identity at another slot.
    Copy { slot: u64 },
    // The identity in its slot.
    Reached(Reason),
}

// Why a member that is found in its slot is not placed.
#[derive(Clone, Copy)]
pub enum Reason {
    // The maximum is placed without it.
    Full,
    // Over the placed part, a search for it meets a vacancy at a slot.
    Blocked { slot: u64 },
    // Over the placed part, a search for it is refused by the gate.
    Unasked(Gate),
    // Nothing says it.
    Unknown,
}

// A verdict on a table of so many members, of which it can have a maximum.
pub fn put_verdict(found: Verdict, count: u64, maximum: u64, out: &mut Out) {
    match found {
        Verdict::Accepted => {
            writeln!(out, "accepted    some order of insertions makes this table");
        }
        Verdict::Gate(gate) => put_gate(gate, out),
        Verdict::Dirty { slot } => {
            let number = refusal::number(Name::Dirty);
            writeln!(
                out,
                "dirty       DIRTY ({number}): no table has slot {slot} as it is here"
            );
        }
        Verdict::Disorder(stuck) => put_disorder(stuck, count, maximum, out),
    }
}

fn put_disorder(stuck: Stuck, count: u64, maximum: u64, out: &mut Out) {
    put_placed(stuck.placed, count, maximum, out);
    let slot = stuck.slot;
    write!(
        out,
        "unplaced    slot {slot} is the first that could not be placed; "
    );
    writeln!(out, "it holds identity {}", Identity(stuck.identity));
    put_met(slot, stuck.met, out);
}

// How many could be placed, and whether there are too many.
fn put_placed(placed: u64, count: u64, maximum: u64, out: &mut Out) {
    let number = refusal::number(Name::Disorder);
    writeln!(
        out,
        "disordered  DISORDER ({number}): no order of insertions makes this table"
    );
    writeln!(out, "placed      {placed} of {count} members");
    if maximum < count {
        writeln!(
            out,
            "too many    {count} members are more than the maximum of {maximum}"
        );
    }
}

// A vacancy is the case that splits samples: what is not found is entered again.
fn put_met(slot: u64, met: Met, out: &mut Out) {
    if let Met::Gate(gate) = met {
        put_gate(gate, out);
        return;
    }
    write!(out, "search      a search for it ");
    match met {
        Met::Vacant { slot: vacant } => {
            write!(out, "stops at slot {vacant}, which is vacant, ");
            writeln!(out, "so it is not found in slot {slot}");
        }
        Met::OffPath => {
            write!(out, "meets no vacancy and does not find it: ");
            writeln!(out, "slot {slot} is not on its path");
        }
        Met::Range { words } => {
            let number = refusal::number(Name::Range);
            write!(
                out,
                "is refused: RANGE ({number}), all of {words} words rejected; "
            );
            writeln!(out, "a larger word cap may do");
        }
        Met::Copy { slot: other } => {
            writeln!(
                out,
                "finds it at slot {other}: the identity stands in the table twice"
            );
        }
        Met::Reached(reason) => put_reason(reason, out),
        Met::Gate(_) => {}
    }
}

fn put_reason(reason: Reason, out: &mut Out) {
    write!(out, "finds it in its slot");
    match reason {
        Reason::Full => writeln!(out, ", but the maximum is placed without it"),
        Reason::Unasked(gate) => put_gate(gate, out),
        Reason::Unknown => writeln!(out, ", but no order of insertions puts it there"),
        Reason::Blocked { slot } => {
            write!(out, ", but no order of insertions puts it there: ");
            writeln!(
                out,
                "on its way it passes slot {slot}, whose member could not be placed either"
            );
        }
    }
}
