// The state block of an elastic table: where its numbers lie in it (see lib.rt), read and written.
ghost use Rattle.std.specs.Prelude.{◌≡◌, length};
ghost use Rattle.gridder_elastic_state.specs.State.{holds_elastic, Reads, limits_in, counts_in, elastic_block, with_counts_in};

use elastic::state::{Limits, State};
use geometry::elastic::ElasticPlan;
use gridder_state::state::{STATE_LENGTH, read_words, write_count, write_words};
use words::bytes::read64;
use words::clear::clear_bytes;

// What the first word says of a block that holds an elastic table.
pub const ELASTIC_KIND: u64 = 2;

// Where the counts of the levels lie.
const LEVELS: usize = 88;

// Whether a block holds an elastic table.
pub fn holds_elastic(state: &[u8]) -> bool
    ensures { result ≡ holds_elastic state.now }
{
    state.len() == STATE_LENGTH
        && read64(state, 0) == ELASTIC_KIND
        && read64(state, 16) < 4294967296
}

// The state that a block holds, with the counts of the table's levels into an array; None where it holds none.
pub fn read_state(state: &[u8], counts: &mut [u64; 32]) -> Option<State>
    ensures { Reads state.now counts.old result counts.new }
{
    if !holds_elastic(state) {
        return None;
    }
    let block = state.as_array()?;
    read_words(block, LEVELS, counts);
    Some(State {
        n: read64(block, 8),
        e: read64(block, 16) as u32,
        seed: read64(block, 24),
        limits: limits_in(block),
        plan: ElasticPlan {
            levels: read64(block, 56),
            maximum: read64(block, 48),
        },
        count: read64(block, 40),
    })
}

// The limits in a block.
fn limits_in(block: &[u8; STATE_LENGTH]) -> Limits
    ensures { result ≡ limits_in block.now }
{
    Limits {
        probe_budget_c: read64(block, 64),
        range_word_cap: read64(block, 32),
        uniform_search_probe_cap: read64(block, 72),
        hit_query_position_cap: read64(block, 80),
    }
}

// A fresh block for a state and the counts of its levels.
pub fn write_state(state: &mut [u8], st: State, counts: &[u64; 32])
    requires { length state.old ≡ 2048 }
    ensures { state.new ≡ elastic_block st counts.now }
{
    let limits = st.limits;
    let plan = st.plan;
    let header = [
        ELASTIC_KIND,
        st.n,
        u64::from(st.e),
        st.seed,
        limits.range_word_cap,
        st.count,
        plan.maximum,
        plan.levels,
        limits.probe_budget_c,
        limits.uniform_search_probe_cap,
        limits.hit_query_position_cap,
    ];
    clear_bytes(state);
    write_words(state, 0, &header);
    write_words(state, LEVELS, counts);
}

// The count and the counts of the levels of a table that a block holds, after an insertion.
pub fn write_counts(state: &mut [u8], count: u64, counts: &[u64; 32])
    requires { length state.old ≡ 2048 }
    ensures { state.new ≡ with_counts_in state.old count counts.now }
{
    write_count(state, count);
    write_words(state, LEVELS, counts);
}
