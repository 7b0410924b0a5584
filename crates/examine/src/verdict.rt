// What the check finds of a loaded table, and why a member could not be placed; `examine_words` prints it.
use audit_calls::check::{CheckRefusal, check};
use examine_words::telling::{Met, Reason, Stuck, Verdict};
use funnel::table::{FunnelTable, Search, slot_of};
use funnel_calls::calls::search;
use refusal::Gate;
use text::buffers::{first_slots, word_buffer};

// A loaded table.
#[derive(Clone, Copy)]
pub struct Held<'a> {
    pub table: FunnelTable,
    pub counts: &'a [u64; 118],
    pub words: &'a [u64],
    pub flags: &'a [u8],
}

// The verdict on a loaded table: the check has the first n entries of large buffers.
pub fn judge(held: Held) -> Verdict {
    let mut order = word_buffer();
    let mut marks = io::large_buffer();
    match first_slots(held.words.len() as u64, &mut order, &mut marks) {
        Some((order, marks)) => checked(held, marks, order),
        None => Verdict::Gate(Gate::State),
    }
}

fn checked(held: Held, marks: &mut [u8], order: &mut [u64]) -> Verdict {
    match check(
        held.table,
        held.counts,
        held.words,
        held.flags,
        marks,
        order,
    ) {
        Ok(_) => Verdict::Accepted,
        Err(CheckRefusal::Gate(gate)) => Verdict::Gate(gate),
        Err(CheckRefusal::Dirty { slot }) => Verdict::Dirty { slot },
        Err(CheckRefusal::Disorder { placed, slot }) => {
            Verdict::Disorder(stuck_at(placed, slot, held, marks))
        }
    }
}

fn stuck_at(placed: u64, slot: u64, held: Held, marks: &[u8]) -> Stuck {
    let identity = held.words.get(slot as usize).copied().unwrap_or(0);
    Stuck {
        placed,
        slot,
        identity,
        met: met_by(placed, slot, identity, held, marks),
    }
}

// What a search of the whole table for the identity of a slot meets.
fn met_by(placed: u64, slot: u64, identity: u64, held: Held, marks: &[u8]) -> Met {
    match search(held.table, held.counts, held.words, held.flags, identity) {
        Err(gate) => Met::Gate(gate),
        Ok(Search::Vacant { place, .. }) => Met::Vacant {
            slot: slot_of(place),
        },
        Ok(Search::Full { .. }) => Met::OffPath,
        Ok(Search::Range(refused)) => Met::Range {
            words: refused.words,
        },
        Ok(Search::Hit { place, .. }) => {
            let hit = slot_of(place);
            if hit == slot {
                Met::Reached(reason(placed, identity, held, marks))
            } else {
                Met::Copy { slot: hit }
            }
        }
    }
}

// A search finds the member in its slot. Then the maximum was placed before it, or a slot that its search passes holds a
// member that could not be placed either: over the placed part, whose flags are the marks, the search stops there.
fn reason(placed: u64, identity: u64, held: Held, marks: &[u8]) -> Reason {
    if held.table.plan.maximum <= placed {
        return Reason::Full;
    }
    match search(held.table, held.counts, held.words, marks, identity) {
        Err(gate) => Reason::Unasked(gate),
        Ok(Search::Vacant { place, .. }) => Reason::Blocked {
            slot: slot_of(place),
        },
        Ok(_) => Reason::Unknown,
    }
}
