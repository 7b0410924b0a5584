// What every call on a block that holds an elastic table begins with.
// As `gridder_calls` does it for a funnel table: another block, and other gates.
ghost use Rattle.gridder_elastic.specs.Enter.{Enters};

use elastic::state::{State, state_gate};
use gridder_answer::answer::ANSWER_LENGTH;
use gridder_answer::gate::block_gate;
use gridder_calls::enter::EnterRefusal;
use gridder_elastic_state::state::read_state;
use lent::word::word_count;

// The state in a block with the counts of the table's levels, past the tests of the state and of the answer block's length. Buffers are
// given by their lengths in bytes.
pub fn enter(
    state: &[u8],
    counts: &mut [u64; 32],
    words: usize,
    flags: usize,
    answer: usize,
) -> Result<State, EnterRefusal>
    ensures { Enters state.now words flags answer result counts.new }
{
    let st = read_state(state, counts).ok_or(EnterRefusal::Unheld)?;
    let entries = word_count(words as u64) as usize;
    block_gate(
        state_gate(st, counts, entries, flags),
        answer,
        ANSWER_LENGTH,
    )?;
    Ok(st)
}
