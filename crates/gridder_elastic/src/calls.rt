// The calls on elastic tables, for a state block that holds one; an opening for any.
// Beside those on funnel tables in `gridder_calls`: each is a call of its own for C, on another engine.
ghost use Rattle.std.specs.Prelude.{◌≡◌, length};
ghost use Rattle.lent.specs.Lent.{words_of};
ghost use Rattle.gridder_answer.specs.Answer.{reply};
ghost use Rattle.gridder_calls.specs.Calls.{left};
ghost use Rattle.gridder_elastic.specs.Calls.{query_call, insert_call, open_blocks_gate, Fresh};

use crate::enter::enter;
pub use elastic::state::fresh;
use elastic::state::{Limits, State, open_gate};
use elastic_insert::insert::place;
use elastic_query::query::look;
use gridder_answer::answer::ANSWER_LENGTH;
use gridder_answer::gate::block_gate;
use gridder_calls::enter::refuse;
use gridder_elastic_answer::say::{say_insert, say_query};
use gridder_elastic_state::state::{write_counts, write_state};
use gridder_state::state::STATE_LENGTH;
use refusal::Gate;
use words::clear::clear_bytes;

// Where an identity is: said in the answer block, with the number of a refusal.
pub fn query_in(state: &[u8], words: &[u8], flags: &[u8], identity: u64, answer: &mut [u8]) -> u64
    ensures { reply result answer.new ≡ query_call state.now words.now flags.now identity answer.old }
{
    let mut counts = [0; 32];
    match enter(state, &mut counts, words.len(), flags.len(), answer.len()) {
        Err(refusal) => refuse(answer, refusal),
        Ok(st) => {
            let found = look(st, &counts, words, flags, identity);
            say_query(answer.as_mut_array().unwrap(), found)
        }
    }
}

// The insertion of an identity. The counts in the block are stepped only where it was inserted.
pub fn insert_in(
    state: &mut [u8],
    words: &mut [u8],
    flags: &mut [u8],
    identity: u64,
    answer: &mut [u8],
) -> u64
    ensures { left result answer.new state.new (words_of words.new) flags.new ≡ insert_call state.old words.old flags.old identity answer.old }
{
    let mut counts = [0; 32];
    match enter(state, &mut counts, words.len(), flags.len(), answer.len()) {
        Err(refusal) => refuse(answer, refusal),
        Ok(st) => {
            let done = place(st, &mut counts, words, flags, identity);
            if done.answer.is_ok() {
                write_counts(state, done.st.count, &counts);
            }
            say_insert(answer.as_mut_array().unwrap(), done.answer)
        }
    }
}

// The base's tests of an opening, and the lengths of both blocks.
pub fn open_blocks_gate(
    n: u64,
    e: u32,
    limits: Limits,
    words: usize,
    flags: usize,
    state: usize,
    answer: usize,
) -> Result<(), Gate>
    ensures { result ≡ open_blocks_gate n e limits words flags state answer }
{
    let tested = block_gate(open_gate(n, e, limits, words, flags), state, STATE_LENGTH);
    block_gate(tested, answer, ANSWER_LENGTH)
}

// A fresh table into its block: words, flags and answer are zeroed.
pub fn open_in(
    st: State,
    state: &mut [u8],
    words: &mut [u8],
    flags: &mut [u8],
    answer: &mut [u8],
) -> u64
    requires { length state.old ≡ 2048 }
    ensures { Fresh st words.old flags.old answer.old result state.new words.new flags.new answer.new }
{
    let counts = [0; 32];
    write_state(state, st, &counts);
    clear_bytes(words);
    clear_bytes(flags);
    clear_bytes(answer);
    0
}
