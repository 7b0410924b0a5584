// The public calls. Each tests 1 to 7 in order and then does the call on a valid table.
ghost use Rattle.std.specs.Prelude.{List, ◌≡◌, length, replicate, Ok};
ghost use Rattle.funnel.specs.Calls.{limits_then, lengths_then, table_gate, open_gate, place_gate, Opens, search_answer_of, insertions, insert_answer_of, placements, place_answer_of};

use funnel::table::{FunnelTable, PlacedAll, Search, Step};
use funnel::view::View;
use funnel_search::search::find;
use geometry_funnel::plan::{funnel_gate, funnel_plan, is_funnel_plan};
use refusal::Gate;
use words::clear::{clear_bytes, clear_words};

// "Funnel word cap 1 to 256"
pub const MOST_WORDS: u64 = 256;

// A fresh table: both buffers zeroed, the counts of its plan written beside it.
pub fn open(
    n: u64,
    e: u32,
    seed: u64,
    word_cap: u64,
    counts: &mut [u64; 118],
    words: &mut [u64],
    flags: &mut [u8],
) -> Result<FunnelTable, Gate>
    ensures { Opens n e seed word_cap counts.old words.old flags.old result counts.new words.new flags.new }
{
    open_gate(n, e, word_cap, words.len() as u64, flags.len() as u64)?;
    let plan = funnel_plan(n, e, counts)?;
    clear_words(words);
    clear_bytes(flags);
    Ok(FunnelTable {
        n,
        e,
        seed,
        word_cap,
        count: 0,
        plan,
    })
}

// Where an identity is, or the vacancy where it would be put.
pub fn search(
    table: FunnelTable,
    counts: &[u64; 118],
    words: &[u64],
    flags: &[u8],
    identity: u64,
) -> Result<Search, Gate>
    ensures { result ≡ search_answer_of table counts.now words.now flags.now identity }
{
    table_gate(table, counts, words.len() as u64, flags.len() as u64)?;
    let view = View {
        table: &table,
        counts,
        words,
        flags,
    };
    Ok(find(&view, identity))
}

// The insertion of an identity.
pub fn insert(
    table: FunnelTable,
    counts: &[u64; 118],
    words: &mut [u64],
    flags: &mut [u8],
    identity: u64,
) -> Result<Step, Gate>
    ensures { insertions result words.new flags.new ≡ insert_answer_of table counts.now words.old flags.old identity }
{
    table_gate(table, counts, words.len() as u64, flags.len() as u64)?;
    Ok(funnel_insert::insert::insert(table, counts, words, flags, identity))
}

// The insertion of many identities, with the slot of each. The gate runs once.
pub fn place_all(
    table: FunnelTable,
    counts: &[u64; 118],
    words: &mut [u64],
    flags: &mut [u8],
    identities: &[u64],
    slots: &mut [u64],
) -> Result<PlacedAll, Gate>
    ensures { placements result words.new flags.new slots.new ≡ place_answer_of table counts.now words.old flags.old identities.now slots.old }
{
    place_gate(
        table,
        counts,
        words.len() as u64,
        flags.len() as u64,
        identities.len() as u64,
        slots.len() as u64,
    )?;
    Ok(funnel_place::place_all::place_all(table, counts, words, flags, identities, slots))
}

// The tests 1 to 7 of a table. Where the plan is right, n and e have a layout, so only a wrong plan pays for that test.
pub fn table_gate(
    table: FunnelTable,
    counts: &[u64; 118],
    words: u64,
    flags: u64,
) -> Result<(), Gate>
    ensures { result ≡ table_gate table counts.now words flags }
{
    if is_funnel_plan(table.n, table.e, table.plan, counts) {
        limits_gate(table.word_cap)?;
        lengths_gate(table.n, words, flags)?;
        if table.n < table.count {
            return Err(Gate::State);
        }
        return Ok(());
    }
    funnel_gate(table.n, table.e)?;
    limits_gate(table.word_cap)?;
    Err(Gate::State)
}

// The tests of a placement.
pub fn place_gate(
    table: FunnelTable,
    counts: &[u64; 118],
    words: u64,
    flags: u64,
    identities: u64,
    slots: u64,
) -> Result<(), Gate>
    ensures { result ≡ place_gate table counts.now words flags identities slots }
{
    table_gate(table, counts, words, flags)?;
    if slots < identities {
        return Err(Gate::State);
    }
    Ok(())
}

// The tests of an opening.
pub fn open_gate(n: u64, e: u32, cap: u64, words: u64, flags: u64) -> Result<(), Gate>
    ensures { result ≡ open_gate n e cap words flags }
{
    funnel_gate(n, e)?;
    limits_gate(cap)?;
    lengths_gate(n, words, flags)
}

// The test of the word cap.
fn limits_gate(cap: u64) -> Result<(), Gate>
    ensures { result ≡ limits_then cap (Ok tt) }
{
    if cap == 0 || MOST_WORDS < cap {
        return Err(Gate::Limits);
    }
    Ok(())
}

// The test of the buffers' lengths.
fn lengths_gate(n: u64, words: u64, flags: u64) -> Result<(), Gate>
    ensures { result ≡ lengths_then n words flags (Ok tt) }
{
    if words != n || flags != n {
        return Err(Gate::State);
    }
    Ok(())
}
