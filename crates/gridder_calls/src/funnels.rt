// Search and insertion, and the gate of every call on a funnel table.
ghost use Rattle.std.specs.Prelude.{◌≡◌};
ghost use Rattle.gridder_answer.specs.Answer.{reply};
ghost use Rattle.gridder_calls.specs.Calls.{call_gate, search_call, left, insert_call};
ghost use Rattle.lent.specs.Lent.{words_of};

use crate::enter::{enter, refuse};
use funnel::table::FunnelTable;
use funnel::view::View;
use funnel_calls::calls::table_gate;
use funnel_insert::insert::put;
use funnel_search::search::find;
use gridder_answer::answer::{ANSWER_LENGTH, say_insertion, say_search};
use gridder_answer::gate::block_gate;
use gridder_state::state::write_count;
use refusal::Gate;

// Where an identity is, or the vacancy where it would be put: said in the answer block, with the number of a refusal.
pub fn search_in(state: &[u8], words: &[u8], flags: &[u8], identity: u64, answer: &mut [u8]) -> u64
    ensures { reply result answer.new ≡ search_call state.now words.now flags.now identity answer.old }
{
    let mut counts = [0; 118];
    match enter(state, &mut counts, words.len(), flags.len(), answer.len()) {
        Err(refusal) => refuse(answer, refusal),
        Ok(table) => {
            let view = View {
                table: &table,
                counts: &counts,
                words,
                flags,
            };
            let found = find(&view, identity);
            say_search(answer.as_mut_array().unwrap(), found)
        }
    }
}

// The tests 1 to 7 of a table, and the length of the answer block.
#[tactic(auto, unfolding(crate::specs::Calls::call_gate))]
pub fn call_gate(
    table: FunnelTable,
    counts: &[u64; 118],
    words: u64,
    flags: u64,
    answer: usize,
) -> Result<(), Gate>
    ensures { result ≡ call_gate table counts.now words flags answer }
{
    block_gate(
        table_gate(table, counts, words, flags),
        answer,
        ANSWER_LENGTH,
    )
}

// The insertion of an identity. The count in the block is stepped only where it was inserted.
pub fn insert_in(
    state: &mut [u8],
    words: &mut [u8],
    flags: &mut [u8],
    identity: u64,
    answer: &mut [u8],
) -> u64
    ensures { left result answer.new state.new (words_of words.new) flags.new ≡ insert_call state.old words.old flags.old identity answer.old }
{
    let mut counts = [0; 118];
    match enter(state, &mut counts, words.len(), flags.len(), answer.len()) {
        Err(refusal) => refuse(answer, refusal),
        Ok(table) => {
            let done = put(table, table.count, &counts, words, flags, identity);
            if done.is_ok() {
                write_count(state, table.count + 1);
            }
            say_insertion(answer.as_mut_array().unwrap(), done)
        }
    }
}
