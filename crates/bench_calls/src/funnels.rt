// Funnel tables, whose numbers travel as n, e, seed, word cap, count and the plan.

use crate::put_plan;
use funnel::table::{FunnelTable, Search};
use funnel::view::View;
use funnel_calls::calls::{insert, open, place_all, table_gate};
use funnel_search::search::find;
use geometry::funnel::FunnelPlan;

pub fn table_of(s: &[u64; 16]) -> FunnelTable {
    FunnelTable {
        n: s[0],
        e: (s[1] % 4294967296) as u32,
        seed: s[2],
        word_cap: s[3],
        count: s[4],
        plan: FunnelPlan {
            maximum: s[5],
            alpha: s[6],
            beta: s[7],
            loglog_ceiling: s[8],
            fallback_bucket_width: s[9],
            special_len: s[10],
            special_primary_len: s[11],
            special_fallback_len: s[12],
            fallback_bucket_count: s[13],
            total_buckets: s[14],
            first_bucket_count: s[15],
        },
    }
}

#[unsafe(no_mangle)]
pub extern "C" fn bench_open(
    n: u64,
    e: u32,
    seed: u64,
    cap: u64,
    plan: &mut [u64; 11],
    counts: &mut [u64; 118],
    words: &mut [u64],
    flags: &mut [u8],
) -> bool {
    let Ok(table) = open(n, e, seed, cap, counts, words, flags) else {
        return false;
    };
    put_plan(table.plan, plan);
    true
}

#[unsafe(no_mangle)]
pub extern "C" fn bench_place_all(
    state: &mut [u64; 16],
    counts: &[u64; 118],
    words: &mut [u64],
    flags: &mut [u8],
    identities: &[u64],
    slots: &mut [u64],
) -> bool {
    let Ok(done) = place_all(table_of(state), counts, words, flags, identities, slots) else {
        return false;
    };
    let answer = done.answer;
    state[4] = done.table.count;
    answer.is_ok()
}

#[unsafe(no_mangle)]
pub extern "C" fn bench_insert(
    state: &mut [u64; 16],
    counts: &[u64; 118],
    words: &mut [u64],
    flags: &mut [u8],
    identity: u64,
) -> bool {
    let Ok(step) = insert(table_of(state), counts, words, flags, identity) else {
        return false;
    };
    let answer = step.answer;
    state[4] = step.table.count;
    answer.is_ok()
}

// The sum of the probe counts of searches, with the gate run once.
#[unsafe(no_mangle)]
pub extern "C" fn bench_search_all(
    state: &[u64; 16],
    counts: &[u64; 118],
    words: &[u64],
    flags: &[u8],
    identities: &[u64],
) -> u64 {
    let table = table_of(state);
    match table_gate(table, counts, words.len() as u64, flags.len() as u64) {
        Ok(()) => {
            let view = View {
                table: &table,
                counts,
                words,
                flags,
            };
            sum_probes(&view, identities)
        }
        Err(_) => 0,
    }
}

fn sum_probes(view: &View<u64>, identities: &[u64]) -> u64 {
    let mut sum: u64 = 0;
    for identity in identities {
        sum = sum.wrapping_add(probes_of(find(view, *identity)));
    }
    sum
}

fn probes_of(found: Search) -> u64 {
    match found {
        Search::Hit { probes, place: _ } => probes,
        Search::Vacant { probes, place: _ } => probes,
        Search::Full { probes } => probes,
        Search::Range(_) => 0,
    }
}
