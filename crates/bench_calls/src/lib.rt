// Calls for the measurements of bench/, on numbers and slices.

#![tactic(auto)]

mod elastics;
mod funnels;
mod images;

use geometry::funnel::FunnelPlan;
use geometry_funnel::plan::{funnel_plan, is_funnel_plan};
use probe::counter::Domain;
use probe::range::funnel_draw;
use probe::word::{FunnelKey, funnel_key};
use words::place::LogicalProbe;

pub fn plan_of(p: &[u64; 11]) -> FunnelPlan {
    FunnelPlan {
        maximum: p[0],
        alpha: p[1],
        beta: p[2],
        loglog_ceiling: p[3],
        fallback_bucket_width: p[4],
        special_len: p[5],
        special_primary_len: p[6],
        special_fallback_len: p[7],
        fallback_bucket_count: p[8],
        total_buckets: p[9],
        first_bucket_count: p[10],
    }
}

pub fn put_plan(plan: FunnelPlan, p: &mut [u64; 11]) {
    p[0] = plan.maximum;
    p[1] = plan.alpha;
    p[2] = plan.beta;
    p[3] = plan.loglog_ceiling;
    p[4] = plan.fallback_bucket_width;
    p[5] = plan.special_len;
    p[6] = plan.special_primary_len;
    p[7] = plan.special_fallback_len;
    p[8] = plan.fallback_bucket_count;
    p[9] = plan.total_buckets;
    p[10] = plan.first_bucket_count;
}

#[unsafe(no_mangle)]
pub extern "C" fn bench_funnel_plan(
    n: u64,
    e: u32,
    plan: &mut [u64; 11],
    counts: &mut [u64; 118],
) -> bool {
    let Ok(p) = funnel_plan(n, e, counts) else {
        return false;
    };
    put_plan(p, plan);
    true
}

#[unsafe(no_mangle)]
pub extern "C" fn bench_is_funnel_plan(
    n: u64,
    e: u32,
    plan: &[u64; 11],
    counts: &[u64; 118],
) -> bool {
    is_funnel_plan(n, e, plan_of(plan), counts)
}

// The sum of the buckets of an identity in the levels, its key worked out once.
#[unsafe(no_mangle)]
pub extern "C" fn bench_draws(seed: u64, identity: u64, cap: u64, counts: &[u64]) -> u64 {
    let key = funnel_key(seed, identity);
    let mut sum: u64 = 0;
    for (level, count) in counts.iter().enumerate() {
        sum = sum.wrapping_add(bucket(key, level as u64, *count, cap));
    }
    sum
}

// The bucket of a key in a level, 0 where there is none.
fn bucket(key: FunnelKey, level: u64, count: u64, cap: u64) -> u64 {
    if count == 0 || 256 < cap || 118 <= level {
        return 0;
    }
    match funnel_draw(key, Domain::Ordinary { level }, LogicalProbe(0), count, cap) {
        Ok(drew) => drew.index,
        Err(_) => 0,
    }
}
