// The answer block: where each number of an answer lies in it (see lib.rt), written.
ghost use Rattle.std.specs.Prelude.{[], ◌∷◌, ◌≡◌, ◌+◌, ◌≤◌};
ghost use Rattle.refusal.specs.Table.{number_of, name_of};
ghost use Rattle.funnel.specs.Calls.{search_report, insertion_report, placement_report};
ghost use Rattle.gridder_answer.specs.Answer.{field, stored, says, saying, probes_at, bucket_at, within_at, slot_at, found_at, place_fields, search_fields, insertion_fields, placement_fields, reply};

use funnel::table::{InsertRefusal, PlaceRefusal, Reached, Search};
use refusal::{Gate, Name, gate_name, number};
use words::bytes::write64;
use words::clear::clear_bytes;
use words::place::Place;

// "a lent 128-byte block"
pub const ANSWER_LENGTH: usize = 128;

// Where the numbers lie; offsets and no enum, since C reads them there.
pub const PROBES: usize = 0;

pub const KIND: usize = 8;

pub const LEVEL: usize = 16;

pub const BUCKET: usize = 24;

pub const WITHIN: usize = 32;

pub const SLOT: usize = 40;

pub const WORDS: usize = 48;

pub const FOUND: usize = 56;

pub const PLACED: usize = 64;

// A refusal of the gate, which has nothing to say but its number.
pub fn say_gate(answer: &mut [u8], gate: Gate) -> u64
    ensures { reply result answer.new ≡ reply (number_of (name_of gate)) (saying answer.old []) }
{
    let refused = number(gate_name(gate));
    if answer.len() != ANSWER_LENGTH {
        return refused;
    }
    clear_bytes(answer);
    refused
}

// What a search found.
pub fn say_search(answer: &mut [u8; ANSWER_LENGTH], found: Search) -> u64
    ensures { reply result answer.new ≡ reply (search_report found).number (says (search_fields found)) }
{
    match found {
        Search::Hit { probes, place } => {
            say_hit(answer, probes, place);
            0
        }
        Search::Vacant { probes, place } => {
            say_reached(answer, probes, place);
            0
        }
        Search::Full { probes } => {
            say_number(answer, PROBES, probes);
            number(Name::Full)
        }
        Search::Range(refusal) => {
            say_number(answer, WORDS, refusal.words);
            number(Name::Range)
        }
    }
}

// What an insertion is answered.
pub fn say_insertion(answer: &mut [u8; ANSWER_LENGTH], done: Result<Reached, InsertRefusal>) -> u64
    ensures { reply result answer.new ≡ reply (insertion_report done).number (says (insertion_fields done)) }
{
    match done {
        Ok(Reached { probes, place }) => {
            say_reached(answer, probes, place);
            0
        }
        Err(InsertRefusal::Range(refusal)) => {
            say_number(answer, WORDS, refusal.words);
            number(Name::Range)
        }
        Err(InsertRefusal::Duplicate { probes, place }) => {
            say_reached(answer, probes, place);
            number(Name::Duplicate)
        }
        Err(InsertRefusal::Exhausted { probes }) => {
            say_number(answer, PROBES, probes);
            number(Name::Exhausted)
        }
        Err(InsertRefusal::Full { probes }) => {
            say_number(answer, PROBES, probes);
            number(Name::Full)
        }
    }
}

// How far a placement of so many identities came.
pub fn say_placement(
    answer: &mut [u8; ANSWER_LENGTH],
    done: Result<(), PlaceRefusal>,
    total: u64,
) -> u64
    ensures { reply result answer.new ≡ reply (placement_report done).number (says (placement_fields done total)) }
{
    match done {
        Ok(()) => {
            say_number(answer, PLACED, total);
            0
        }
        Err(PlaceRefusal::Range { index, refusal }) => {
            say_both(answer, PLACED, index, WORDS, refusal.words);
            number(Name::Range)
        }
        Err(PlaceRefusal::Exhausted { index, probes }) => {
            say_both(answer, PLACED, index, PROBES, probes);
            number(Name::Exhausted)
        }
        Err(PlaceRefusal::Full { index, probes }) => {
            say_both(answer, PLACED, index, PROBES, probes);
            number(Name::Full)
        }
    }
}

// One number alone. One number and two have a function each: over a slice of pairs, the bound of an offset would be a fact of every pair.
pub fn say_number(answer: &mut [u8; ANSWER_LENGTH], at: usize, x: u64)
    requires { at + 8 ≤ 128 }
    ensures { answer.new ≡ says (field at x ∷ []) }
{
    clear_bytes(answer);
    write64(answer, at, x);
}

// Two numbers alone.
pub fn say_both(answer: &mut [u8; ANSWER_LENGTH], at: usize, x: u64, to: usize, y: u64)
    requires { (at + 8 ≤ 128) × (to + 8 ≤ 128) }
    ensures { answer.new ≡ says (field at x ∷ field to y ∷ []) }
{
    clear_bytes(answer);
    write64(answer, at, x);
    write64(answer, to, y);
}

// A place and the probes it took. It and the next stay two: as one, with a flag for FOUND, each would still store another row of fields.
fn say_reached(answer: &mut [u8; ANSWER_LENGTH], probes: u64, place: Place)
    ensures { answer.new ≡ says (field probes_at probes ∷ place_fields place) }
{
    clear_bytes(answer);
    write64(answer, PROBES, probes);
    say_place(answer, place);
}

// The same where a search met the identity.
fn say_hit(answer: &mut [u8; ANSWER_LENGTH], probes: u64, place: Place)
    ensures { answer.new ≡ says (field probes_at probes ∷ field found_at 1 ∷ place_fields place) }
{
    clear_bytes(answer);
    write64(answer, PROBES, probes);
    write64(answer, FOUND, 1);
    say_place(answer, place);
}

// A place, over what the block holds.
fn say_place(answer: &mut [u8; ANSWER_LENGTH], place: Place)
    ensures { answer.new ≡ stored answer.old (place_fields place) }
{
    match place {
        Place::Ordinary {
            level,
            bucket,
            slot_in_bucket,
            global_slot,
        } => {
            write64(answer, KIND, 1);
            write64(answer, LEVEL, level);
            say_within(answer, bucket, slot_in_bucket, global_slot.0);
        }
        Place::SpecialPrimary { slot, global_slot } => {
            write64(answer, KIND, 2);
            write64(answer, WITHIN, slot);
            write64(answer, SLOT, global_slot.0);
        }
        Place::SpecialFallback {
            bucket,
            slot_in_bucket,
            global_slot,
        } => {
            write64(answer, KIND, 3);
            say_within(answer, bucket, slot_in_bucket, global_slot.0);
        }
    }
}

// A bucket, the slot in it and the global slot, over what the block holds.
fn say_within(answer: &mut [u8; ANSWER_LENGTH], bucket: u64, within: u64, slot: u64)
    ensures { answer.new ≡ stored answer.old (field bucket_at bucket ∷ field within_at within ∷ field slot_at slot ∷ []) }
{
    write64(answer, BUCKET, bucket);
    write64(answer, WITHIN, within);
    write64(answer, SLOT, slot);
}
