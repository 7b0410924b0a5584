// Elastic tables, whose numbers travel as n, e, seed, c, word cap, search cap, position cap, levels, maximum and count.
use elastic::state::{Limits, State, open};
use elastic_insert::insert::insert;
use elastic_query::query::query;
use geometry::elastic::ElasticPlan;

fn limits_of(s: &[u64; 10]) -> Limits {
    Limits {
        probe_budget_c: s[3],
        range_word_cap: s[4],
        uniform_search_probe_cap: s[5],
        hit_query_position_cap: s[6],
    }
}

fn exponent_of(s: &[u64; 10]) -> u32 {
    (s[1] % 4294967296) as u32
}

fn state_of(s: &[u64; 10]) -> State {
    State {
        n: s[0],
        e: exponent_of(s),
        seed: s[2],
        limits: limits_of(s),
        plan: ElasticPlan {
            levels: s[7],
            maximum: s[8],
        },
        count: s[9],
    }
}

// A fresh table of the first seven numbers; writes the other three.
#[unsafe(no_mangle)]
pub extern "C" fn bench_elastic_open(
    state: &mut [u64; 10],
    counts: &mut [u64; 32],
    words: &mut [u64],
    flags: &mut [u8],
) -> bool {
    let limits = limits_of(state);
    let e = exponent_of(state);
    let Ok(st) = open(state[0], e, state[2], limits, counts, words, flags) else {
        return false;
    };
    let plan = st.plan;
    state[7] = plan.levels;
    state[8] = plan.maximum;
    state[9] = 0;
    true
}

// The phi of the slot that the identity went to, 0 where it was refused.
#[unsafe(no_mangle)]
pub extern "C" fn bench_elastic_insert(
    state: &mut [u64; 10],
    counts: &mut [u64; 32],
    words: &mut [u64],
    flags: &mut [u8],
    identity: u64,
) -> u64 {
    let step = insert(state_of(state), counts, words, flags, identity);
    let next = step.st;
    let answer = step.answer;
    state[9] = next.count;
    match answer {
        Ok(insertion) => insertion.phi,
        Err(_) => 0,
    }
}

// The position where the identity was found, 0 where it was not.
#[unsafe(no_mangle)]
pub extern "C" fn bench_elastic_query(
    state: &[u64; 10],
    counts: &[u64; 32],
    words: &[u64],
    flags: &[u8],
    identity: u64,
) -> u64 {
    match query(state_of(state), counts, words, flags, identity) {
        Ok(found) => found.position,
        Err(_) => 0,
    }
}
