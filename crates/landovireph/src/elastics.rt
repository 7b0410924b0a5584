// The calls for C on elastic tables. Each requires nothing.
// Beside those on funnel tables: C links to each by its own name.
ghost use Rattle.std.specs.Prelude.{◌≡◌};
ghost use Rattle.gridder_answer.specs.Answer.{reply};
ghost use Rattle.gridder_calls.specs.Calls.{left};
ghost use Rattle.gridder_elastic.specs.Calls.{insert_call, limits_of, open_call, query_call};
ghost use Rattle.lent.specs.Lent.{words_of};

use elastic::state::{Limits, State};
use gridder_elastic::calls::{fresh, insert_in, open_blocks_gate, open_in, query_in};
use gridder_open::open::refuse_open;
use lent::word::word_count;

// Where an identity is.
#[unsafe(no_mangle)]
pub extern "C" fn landovireph_elastic_query(
    state: &[u8],
    words: &[u8],
    flags: &[u8],
    identity: u64,
    answer: &mut [u8],
) -> u64
    ensures { reply result answer.new ≡ query_call state.now words.now flags.now identity answer.old }
{
    query_in(state, words, flags, identity, answer)
}

// The insertion of an identity.
#[unsafe(no_mangle)]
pub extern "C" fn landovireph_elastic_insert(
    state: &mut [u8],
    words: &mut [u8],
    flags: &mut [u8],
    identity: u64,
    answer: &mut [u8],
) -> u64
    ensures { left result answer.new state.new (words_of words.new) flags.new ≡ insert_call state.old words.old flags.old identity answer.old }
{
    insert_in(state, words, flags, identity, answer)
}

// A fresh table: words and flags zeroed, its numbers in the state block.
#[unsafe(no_mangle)]
pub extern "C" fn landovireph_elastic_open(
    n: u64,
    e: u32,
    seed: u64,
    c: u64,
    word_cap: u64,
    search_cap: u64,
    position_cap: u64,
    state: &mut [u8],
    words: &mut [u8],
    flags: &mut [u8],
    answer: &mut [u8],
) -> u64
    ensures { left result answer.new state.new (words_of words.new) flags.new ≡ open_call n e seed (limits_of c word_cap search_cap position_cap) state.old words.old flags.old answer.old }
{
    let limits = Limits {
        probe_budget_c: c,
        range_word_cap: word_cap,
        uniform_search_probe_cap: search_cap,
        hit_query_position_cap: position_cap,
    };
    let entries = word_count(words.len() as u64) as usize;
    let slots = flags.len();
    match open_blocks_gate(n, e, limits, entries, slots, state.len(), answer.len()) {
        Err(g) => refuse_open(state.len(), answer, g),
        Ok(()) => open_in(fresh(n, e, seed, limits), state, words, flags, answer),
    }
}
