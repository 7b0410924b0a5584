// The check.
ghost use Rattle.std.specs.Prelude.{◌≡◌};
ghost use Rattle.audit_calls.specs.Check.{report_of};
ghost use Rattle.gridder_answer.specs.Answer.{says, reply};
ghost use Rattle.lent.specs.Lent.{words_of};
ghost use Rattle.gridder_check.specs.Check.{check_call_gate, checked_fields, check_left, check_call};

use audit_calls::check::{CheckRefusal, audit, check_gate};
use funnel::table::FunnelTable;
use funnel::view::View;
use gridder_answer::answer::{ANSWER_LENGTH, PLACED, SLOT, say_both, say_gate, say_number};
use gridder_answer::gate::block_gate;
use gridder_state::state::read_table;
use lent::word::word_count;
use refusal::{Gate, Name, number};

pub fn check_in(
    state: &[u8],
    words: &[u8],
    flags: &[u8],
    marks: &mut [u8],
    order: &mut [u8],
    answer: &mut [u8],
) -> u64
    ensures { check_left result answer.new marks.new (words_of order.new) ≡ check_call state.now words.now flags.now marks.old order.old answer.old }
{
    let mut counts = [0; 118];
    let Some(table) = read_table(state, &mut counts) else {
        return number(Name::State);
    };
    let entries = word_count(words.len() as u64);
    let places = word_count(order.len() as u64);
    let slots = flags.len() as u64;
    let marked = marks.len() as u64;
    match check_call_gate(table, &counts, entries, slots, marked, places, answer.len()) {
        Err(gate) => say_gate(answer, gate),
        Ok(()) => {
            let view = View {
                table: &table,
                counts: &counts,
                words,
                flags,
            };
            let done = audit(&view, marks, order);
            say_checked(answer.as_mut_array().unwrap(), done)
        }
    }
}

// The tests of a check, and the length of the answer block.
#[tactic(auto, unfolding(crate::specs::Check::check_call_gate))]
fn check_call_gate(
    table: FunnelTable,
    counts: &[u64; 118],
    words: u64,
    flags: u64,
    marks: u64,
    order: u64,
    answer: usize,
) -> Result<(), Gate>
    ensures { result ≡ check_call_gate table counts.now words flags marks order answer }
{
    block_gate(
        check_gate(table, counts, words, flags, marks, order),
        answer,
        ANSWER_LENGTH,
    )
}

// What a check found.
fn say_checked(answer: &mut [u8; ANSWER_LENGTH], done: Result<u64, CheckRefusal>) -> u64
    ensures { reply result answer.new ≡ reply (report_of done).number (says (checked_fields done)) }
{
    match done {
        Ok(placed) => {
            say_number(answer, PLACED, placed);
            0
        }
        Err(CheckRefusal::Disorder { placed, slot }) => {
            say_both(answer, PLACED, placed, SLOT, slot);
            number(Name::Disorder)
        }
        Err(CheckRefusal::Dirty { slot }) => {
            say_number(answer, SLOT, slot);
            number(Name::Dirty)
        }
        Err(CheckRefusal::Gate(gate)) => say_gate(answer, gate),
    }
}
