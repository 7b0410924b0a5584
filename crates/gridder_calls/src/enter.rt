// What every call on a state block begins with.
ghost use Rattle.std.specs.Prelude.{◌≡◌};
ghost use Rattle.gridder_answer.specs.Answer.{reply};
ghost use Rattle.gridder_calls.specs.Enter.{Enters, refusal_reply};
ghost use Rattle.gridder_calls.specs.declared.enter.EnterRefusal.TheVariants.{Refused};

use crate::funnels::call_gate;
use funnel::table::FunnelTable;
use gridder_answer::answer::say_gate;
use gridder_state::state::read_table;
use lent::word::word_count;
use refusal::{Gate, Name, number};

// Why a call ends with its tests: its state block holds no funnel table, or a refusal of the gate.
#[derive(Clone, Copy)]
pub enum EnterRefusal {
    Unheld,
    Refused(Gate),
}

impl From<Gate> for EnterRefusal {
    ghost from_gives = { λ gate refusal. refusal ≡ Refused gate };

    fn from(refused: Gate) -> EnterRefusal {
        EnterRefusal::Refused(refused)
    }
}

// The table of a block with the counts of its levels, past the tests 1 to 7 and that of the answer block's length. Buffers are given by
// their lengths in bytes. A call with tests of its own makes them after this.
pub fn enter(
    state: &[u8],
    counts: &mut [u64; 118],
    words: usize,
    flags: usize,
    answer: usize,
) -> Result<FunnelTable, EnterRefusal>
    ensures { Enters state.now words flags answer result counts.new }
{
    let table = read_table(state, counts).ok_or(EnterRefusal::Unheld)?;
    let entries = word_count(words as u64);
    call_gate(table, counts, entries, flags as u64, answer)?;
    Ok(table)
}

// What a call is answered that ends with its tests: where the block holds no table, the answer block stays.
pub fn refuse(answer: &mut [u8], refusal: EnterRefusal) -> u64
    ensures { reply result answer.new ≡ refusal_reply answer.old refusal }
{
    match refusal {
        EnterRefusal::Unheld => number(Name::State),
        EnterRefusal::Refused(gate) => say_gate(answer, gate),
    }
}
