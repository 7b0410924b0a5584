// The calls for C on funnel tables. Each requires nothing.
ghost use Rattle.std.specs.Prelude.{◌≡◌};
ghost use Rattle.gridder_answer.specs.Answer.{reply};
ghost use Rattle.gridder_calls.specs.Calls.{insert_call, left, search_call};
ghost use Rattle.gridder_open.specs.Open.{OpensLent};
ghost use Rattle.gridder_place.specs.Place.{all_left, place_call};
ghost use Rattle.lent.specs.Lent.{words_of};

use gridder_calls::funnels::{insert_in, search_in};
use gridder_open::open::{open_blocks_gate, open_in, refuse_open};
use gridder_place::placing::place_in;
use lent::word::word_count;

// Where an identity is, or the vacancy where it would be put.
#[unsafe(no_mangle)]
pub extern "C" fn landovireph_funnel_search(
    state: &[u8],
    words: &[u8],
    flags: &[u8],
    identity: u64,
    answer: &mut [u8],
) -> u64
    ensures { reply result answer.new ≡ search_call state.now words.now flags.now identity answer.old }
{
    search_in(state, words, flags, identity, answer)
}

// The insertion of an identity.
#[unsafe(no_mangle)]
pub extern "C" fn landovireph_funnel_insert(
    state: &mut [u8],
    words: &mut [u8],
    flags: &mut [u8],
    identity: u64,
    answer: &mut [u8],
) -> u64
    ensures { left result answer.new state.new (words_of words.new) flags.new ≡ insert_call state.old words.old flags.old identity answer.old }
{
    insert_in(state, words, flags, identity, answer)
}

// A fresh table: words and flags zeroed, its numbers in the state block.
#[unsafe(no_mangle)]
pub extern "C" fn landovireph_funnel_open(
    n: u64,
    e: u32,
    seed: u64,
    word_cap: u64,
    state: &mut [u8],
    words: &mut [u8],
    flags: &mut [u8],
    answer: &mut [u8],
) -> u64
    ensures { OpensLent n e seed word_cap state.old words.old flags.old answer.old result state.new words.new flags.new answer.new }
{
    let entries = word_count(words.len() as u64);
    let slots = flags.len() as u64;
    match open_blocks_gate(n, e, word_cap, entries, slots, state.len(), answer.len()) {
        Err(g) => refuse_open(state.len(), answer, g),
        Ok(()) => open_in(n, e, seed, word_cap, state, words, flags, answer),
    }
}

// The insertion of many identities, with the slot of each, up to the first refusal. The gate runs once.
#[unsafe(no_mangle)]
pub extern "C" fn landovireph_funnel_place_all(
    state: &mut [u8],
    words: &mut [u8],
    flags: &mut [u8],
    identities: &[u8],
    slots: &mut [u8],
    answer: &mut [u8],
) -> u64
    ensures { all_left result answer.new state.new (words_of words.new) flags.new (words_of slots.new) ≡ place_call state.old words.old flags.old identities.now slots.old answer.old }
{
    place_in(state, words, flags, identities, slots, answer)
}
