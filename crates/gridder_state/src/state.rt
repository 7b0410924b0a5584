// The state block: where a table's numbers lie in it (see lib.rt), read and written.
// What is written stays a slice that is 2,048 bytes long: that is what C lends, and the gate of each call has tested its length.
ghost use Rattle.std.specs.Prelude.{◌≡◌, ◌+◌, ◌*◌, ◌≤◌, length};
ghost use Rattle.std.proofs.lemmas.List.Edits.{sets};
ghost use Rattle.lent.specs.Lent.{lent, words_from};
ghost use Rattle.gridder_state.specs.State.{holds_funnel, Reads, plan_in, counts_in, funnel_block, with_count_in};

use funnel::table::FunnelTable;
use geometry::funnel::FunnelPlan;
use words::bytes::{read64, write64};
use words::clear::clear_bytes;

// "a second lent block of 2,048 bytes"
pub const STATE_LENGTH: usize = 2048;

// What the first word says of a block that holds a funnel table.
pub const FUNNEL_KIND: u64 = 1;

// Where the count and the counts of the levels lie.
const COUNT: usize = 40;

const COUNTS: usize = 136;

// Whether a block holds a funnel table.
#[tactic(auto, unfolding(crate::specs::State::holds_kind))]
pub fn holds_funnel(state: &[u8]) -> bool
    ensures { result ≡ holds_funnel state.now }
{
    state.len() == STATE_LENGTH && read64(state, 0) == FUNNEL_KIND && read64(state, 16) < 4294967296
}

// The table that a block holds, with the counts of its levels into an array; None where it holds none.
pub fn read_table(state: &[u8], counts: &mut [u64; 118]) -> Option<FunnelTable>
    ensures { Reads state.now counts.old result counts.new }
{
    if !holds_funnel(state) {
        return None;
    }
    let block = state.as_array()?;
    read_words(block, COUNTS, counts);
    Some(FunnelTable {
        n: read64(block, 8),
        e: read64(block, 16) as u32,
        seed: read64(block, 24),
        word_cap: read64(block, 32),
        count: read64(block, COUNT),
        plan: plan_in(block),
    })
}

// The plan in a block.
fn plan_in(block: &[u8; STATE_LENGTH]) -> FunnelPlan
    ensures { result ≡ plan_in block.now }
{
    FunnelPlan {
        maximum: read64(block, 48),
        alpha: read64(block, 56),
        beta: read64(block, 64),
        loglog_ceiling: read64(block, 72),
        fallback_bucket_width: read64(block, 80),
        special_len: read64(block, 88),
        special_primary_len: read64(block, 96),
        special_fallback_len: read64(block, 104),
        fallback_bucket_count: read64(block, 112),
        total_buckets: read64(block, 120),
        first_bucket_count: read64(block, 128),
    }
}

// A fresh block for a table and the counts of its levels.
pub fn write_table(state: &mut [u8], table: FunnelTable, counts: &[u64; 118])
    requires { length state.old ≡ 2048 }
    ensures { state.new ≡ funnel_block table counts.now }
{
    let plan = table.plan;
    let header = [
        FUNNEL_KIND,
        table.n,
        u64::from(table.e),
        table.seed,
        table.word_cap,
        table.count,
        plan.maximum,
        plan.alpha,
        plan.beta,
        plan.loglog_ceiling,
        plan.fallback_bucket_width,
        plan.special_len,
        plan.special_primary_len,
        plan.special_fallback_len,
        plan.fallback_bucket_count,
        plan.total_buckets,
        plan.first_bucket_count,
    ];
    clear_bytes(state);
    write_words(state, 0, &header);
    write_words(state, COUNTS, counts);
}

// The words that bytes from an offset on are, into a slice.
pub fn read_words(from: &[u8], at: usize, into: &mut [u64])
    requires { at + length into.old * 8 ≤ length from.now }
    ensures { into.new ≡ words_from from.now at (length into.old) }
{
    for (i, word) in into.iter_mut().enumerate() {
        *word = read64(from, at + i * 8);
    }
}

// Words as bytes from an offset on.
pub fn write_words(out: &mut [u8], at: usize, words: &[u64])
    requires { at + length words.now * 8 ≤ length out.old }
    ensures { out.new ≡ sets out.old at (lent words.now) }
{
    for (i, word) in words.iter().enumerate() {
        write64(out, at + i * 8, *word);
    }
}

// The count of a table that a block holds, after an insertion.
pub fn write_count(state: &mut [u8], count: u64)
    requires { length state.old ≡ 2048 }
    ensures { state.new ≡ with_count_in state.old count }
{
    write64(state, COUNT, count);
}
