// The opening of a funnel table for C: its gate, what a refusal says, and the opening itself.
ghost use Rattle.std.specs.Prelude.{◌≡◌, Ok, length};
ghost use Rattle.gridder_answer.specs.Answer.{reply};
ghost use Rattle.gridder_open.specs.Open.{open_blocks_gate, open_saying, OpensBy};
ghost use Rattle.refusal.specs.Table.{number_of, name_of};
ghost use Rattle.lent.specs.Lent.{word_count};

use funnel::table::FunnelTable;
use funnel_calls::calls::open_gate;
use geometry_funnel::plan::funnel_plan;
use gridder_answer::answer::{ANSWER_LENGTH, say_gate};
use gridder_answer::gate::block_gate;
use gridder_state::state::{STATE_LENGTH, write_table};
use refusal::{Gate, Name, gate_name, number};
use words::clear::clear_bytes;

// The tests of an opening, and the lengths of both blocks.
#[tactic(auto, unfolding(crate::specs::Open::open_blocks_gate))]
pub fn open_blocks_gate(
    n: u64,
    e: u32,
    cap: u64,
    words: u64,
    flags: u64,
    state: usize,
    answer: usize,
) -> Result<(), Gate>
    ensures { result ≡ open_blocks_gate n e cap words flags state answer }
{
    let tested = block_gate(open_gate(n, e, cap, words, flags), state, STATE_LENGTH);
    block_gate(tested, answer, ANSWER_LENGTH)
}

// What a refused opening says: nothing where a state block of another length is STATE.
pub fn refuse_open(state: usize, answer: &mut [u8], gate: Gate) -> u64
    ensures { reply result answer.new ≡ reply (number_of (name_of gate)) (open_saying (number_of (name_of gate)) state answer.old) }
{
    match gate {
        Gate::State => {
            if state != STATE_LENGTH {
                return number(Name::State);
            }
            say_gate(answer, gate)
        }
        _ => say_gate(answer, gate),
    }
}

pub fn open_in(
    n: u64,
    e: u32,
    seed: u64,
    word_cap: u64,
    state: &mut [u8],
    words: &mut [u8],
    flags: &mut [u8],
    answer: &mut [u8],
) -> u64
    requires { open_blocks_gate n e word_cap (word_count (length words.old)) (length flags.old) (length state.old) (length answer.old) ≡ Ok tt }
    ensures { OpensBy (Ok tt) n e seed word_cap state.old words.old flags.old answer.old result state.new words.new flags.new answer.new }
{
    let mut counts = [0; 118];
    match funnel_plan(n, e, &mut counts) {
        Err(gate) => number(gate_name(gate)),
        Ok(plan) => {
            let table = FunnelTable {
                n,
                e,
                seed,
                word_cap,
                count: 0,
                plan,
            };
            write_table(state, table, &counts);
            clear_bytes(words);
            clear_bytes(flags);
            clear_bytes(answer);
            0
        }
    }
}
