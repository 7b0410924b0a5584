// What the calls on elastic tables say, in the answer block of `gridder_answer` (see lib.rt for the offsets).
ghost use Rattle.std.specs.Prelude.{◌≡◌, Err, replicate};
ghost use Rattle.elastic_steps.specs.Insert.{refusal_report, insert_report};
ghost use Rattle.elastic_query.specs.Query.{query_report};
ghost use Rattle.gridder_answer.specs.Answer.{stored, says, reply};
ghost use Rattle.gridder_elastic_answer.specs.Say.{fields_at, refused_at, five_fields, case_fields, inserted_fields, insert_fields, query_fields};

use elastic_query::query::{Finding, QueryRefusal};
use elastic_steps::answer::{Case, InsertRefusal, Insertion};
use gridder_answer::answer::{ANSWER_LENGTH, LEVEL, SLOT, WITHIN, WORDS};
use refusal::{Name, gate_name, number};
use words::bytes::write64;
use words::clear::clear_bytes;

// Where the numbers lie that only these calls tell.
const PAPER_PROBE: usize = 0;

const CASE: usize = 8;

const BATCH: usize = 24;

const POSITION: usize = 72;

const MAPPED: usize = 80;

const GAP: usize = 88;

const FREE: usize = 96;

const FREE_NEXT: usize = 104;

const BUDGET: usize = 112;

// What an insertion is answered.
pub fn say_insert(answer: &mut [u8; ANSWER_LENGTH], said: Result<Insertion, InsertRefusal>) -> u64
    ensures { reply result answer.new ≡ reply (insert_report said).number (says (insert_fields said)) }
{
    clear_bytes(answer);
    match said {
        Ok(insertion) => {
            say_inserted(answer, insertion);
            0
        }
        Err(refusal) => say_refusal(answer, refusal),
    }
}

// How an identity went in, over what the block holds.
fn say_inserted(answer: &mut [u8; ANSWER_LENGTH], insertion: Insertion)
    ensures { answer.new ≡ stored answer.old (inserted_fields insertion) }
{
    let location = insertion.location;
    say_case(answer, insertion.case);
    write64(answer, LEVEL, location.level);
    write64(answer, WITHIN, location.slot_in_level.0);
    write64(answer, SLOT, location.global_slot.0);
    write64(answer, PAPER_PROBE, insertion.paper_probe.0);
    write64(answer, POSITION, insertion.phi);
}

// The rule that placed an identity, over what the block holds.
fn say_case(answer: &mut [u8; ANSWER_LENGTH], case: Case)
    ensures { answer.new ≡ stored answer.old (case_fields case) }
{
    match case {
        Case::Batch0 { .. } => say_five(answer, 0, 0, 0, 0, 0),
        Case::Case1 {
            batch,
            free_current,
            free_next,
            budget,
            ..
        } => say_five(answer, 1, batch, free_current, free_next, budget),
        Case::Case2 {
            batch,
            free_current,
            free_next,
            ..
        } => say_five(answer, 2, batch, free_current, free_next, 0),
        Case::Case3 {
            batch,
            free_current,
            free_next,
            ..
        } => say_five(answer, 3, batch, free_current, free_next, 0),
    }
}

fn say_five(
    answer: &mut [u8; ANSWER_LENGTH],
    case: u64,
    batch: u64,
    free: u64,
    next_free: u64,
    budget: u64,
)
    ensures { answer.new ≡ stored answer.old (five_fields case batch free next_free budget) }
{
    write64(answer, CASE, case);
    write64(answer, BATCH, batch);
    write64(answer, FREE, free);
    write64(answer, FREE_NEXT, next_free);
    write64(answer, BUDGET, budget);
}

// Why an insertion is refused, in a block of zeros.
fn say_refusal(answer: &mut [u8; ANSWER_LENGTH], refusal: InsertRefusal) -> u64
    requires { answer.old ≡ replicate 128 0 }
    ensures { reply result answer.new ≡ reply (refusal_report refusal).number (says (fields_at (refused_at refusal) (refusal_report refusal).values)) }
{
    match refusal {
        InsertRefusal::Gate(g) => number(gate_name(g)),
        InsertRefusal::Duplicate(slot) => {
            write64(answer, SLOT, slot.0);
            number(Name::Duplicate)
        }
        InsertRefusal::Exhausted => number(Name::Exhausted),
        InsertRefusal::Schedule => number(Name::Schedule),
        InsertRefusal::Range(range) => {
            write64(answer, WORDS, range.words);
            number(Name::Range)
        }
        InsertRefusal::Search => number(Name::Search),
        InsertRefusal::Position => number(Name::Position),
    }
}

// What a query found.
pub fn say_query(answer: &mut [u8; ANSWER_LENGTH], said: Result<Finding, QueryRefusal>) -> u64
    ensures { reply result answer.new ≡ reply (query_report said).number (says (query_fields said)) }
{
    clear_bytes(answer);
    match said {
        Ok(found) => {
            write64(answer, POSITION, found.position);
            write64(answer, SLOT, found.global_slot.0);
            write64(answer, MAPPED, found.mapped);
            write64(answer, GAP, found.gap);
            write64(answer, WORDS, found.words);
            0
        }
        Err(refusal) => say_unfound(answer, refusal),
    }
}

// Why a query finds nothing, in a block of zeros.
fn say_unfound(answer: &mut [u8; ANSWER_LENGTH], refusal: QueryRefusal) -> u64
    requires { answer.old ≡ replicate 128 0 }
    ensures { reply result answer.new ≡ reply (query_report (Err refusal)).number (says (query_fields (Err refusal))) }
{
    match refusal {
        QueryRefusal::Range(range) => {
            write64(answer, WORDS, range.words);
            number(Name::Range)
        }
        QueryRefusal::Absent => number(Name::Absent),
        QueryRefusal::Gate(g) => number(gate_name(g)),
    }
}
