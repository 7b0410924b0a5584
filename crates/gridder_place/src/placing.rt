// The placement of many identities.
ghost use Rattle.std.specs.Prelude.{◌≡◌};
ghost use Rattle.gridder_place.specs.Place.{room_for, all_left, place_call};
ghost use Rattle.lent.specs.Lent.{words_of};

use funnel_place::place_all::place_all;
use gridder_answer::answer::{say_gate, say_placement};
use gridder_calls::enter::{enter, refuse};
use gridder_state::state::write_count;
use refusal::Gate;

// The slot of each identity, where it is or was put, up to the first refusal. The count is written also then, since those before it are placed.
pub fn place_in(
    state: &mut [u8],
    words: &mut [u8],
    flags: &mut [u8],
    identities: &[u8],
    slots: &mut [u8],
    answer: &mut [u8],
) -> u64
    ensures { all_left result answer.new state.new (words_of words.new) flags.new (words_of slots.new) ≡ place_call state.old words.old flags.old identities.now slots.old answer.old }
{
    let mut counts = [0; 118];
    match enter(state, &mut counts, words.len(), flags.len(), answer.len()) {
        Err(refusal) => refuse(answer, refusal),
        Ok(table) => {
            let given = identities.len() as u64;
            if !room_for(given, slots.len() as u64) {
                return say_gate(answer, Gate::State);
            }
            let all = place_all(table, &counts, words, flags, identities, slots);
            write_count(state, all.table.count);
            say_placement(answer.as_mut_array().unwrap(), all.answer, given / 8)
        }
    }
}

// Whether identities and slots are whole words, with a slot for each identity, by their lengths in bytes.
#[tactic(auto, unfolding(crate::specs::Place::room_for))]
fn room_for(identities: u64, slots: u64) -> bool
    ensures { result ≡ room_for identities slots }
{
    identities % 8 == 0 && slots % 8 == 0 && identities <= slots
}
