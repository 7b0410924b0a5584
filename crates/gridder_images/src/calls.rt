// Loading and writing.
ghost use Rattle.std.specs.Prelude.{◌≡◌};
ghost use Rattle.lent.specs.Lent.{words_of};
ghost use Rattle.gridder_calls.specs.Calls.{left};
ghost use Rattle.gridder_images.specs.Calls.{load_call, sent, write_call_gate, write_call};

use crate::say::{say_load, say_write};
use funnel::table::FunnelTable;
use gridder_answer::answer::{ANSWER_LENGTH, say_gate};
use gridder_answer::gate::block_gate;
use gridder_calls::enter::{enter, refuse};
use gridder_state::state::{read_table, write_count};
use image_calls::calls::write_gate;
use image_calls::loader::load;
use image_writer::writer::write;
use lent::word::word_count;
use refusal::{Gate, Name, number};

// A table from an image of it. The count in the block becomes that of the image, where it is loaded.
pub fn load_in(
    state: &mut [u8],
    words: &mut [u8],
    flags: &mut [u8],
    image: &[u8],
    answer: &mut [u8],
) -> u64
    ensures { left result answer.new state.new (words_of words.new) flags.new ≡ load_call state.old words.old flags.old image.now answer.old }
{
    let mut counts = [0; 118];
    match enter(state, &mut counts, words.len(), flags.len(), answer.len()) {
        Err(refusal) => refuse(answer, refusal),
        Ok(table) => {
            let loaded = load(table, words, flags, image);
            if let Ok(filled) = loaded {
                write_count(state, filled.count);
            }
            say_load(answer.as_mut_array().unwrap(), loaded)
        }
    }
}

// The image of a table; bytes past it stay as they were.
pub fn write_in(
    state: &[u8],
    words: &[u8],
    flags: &[u8],
    label: &[u8],
    image: &mut [u8],
    answer: &mut [u8],
) -> u64
    ensures { sent result answer.new image.new ≡ write_call state.now words.now flags.now label.now image.old answer.old }
{
    let mut counts = [0; 118];
    let Some(table) = read_table(state, &mut counts) else {
        return number(Name::State);
    };
    let entries = word_count(words.len() as u64);
    let slots = flags.len() as u64;
    match write_call_gate(table, &counts, entries, slots, label.len(), answer.len()) {
        Err(gate) => say_gate(answer, gate),
        Ok(()) => {
            let written = write(table, words, flags, label, image);
            say_write(answer.as_mut_array().unwrap(), written)
        }
    }
}

// The writer's tests 1 to 7, and the length of the answer block.
fn write_call_gate(
    table: FunnelTable,
    counts: &[u64; 118],
    words: u64,
    flags: u64,
    label: usize,
    answer: usize,
) -> Result<(), Gate>
    ensures { result ≡ write_call_gate table counts.now words flags label answer }
{
    block_gate(
        write_gate(table, counts, words, flags, label),
        answer,
        ANSWER_LENGTH,
    )
}
