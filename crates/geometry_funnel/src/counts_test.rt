// Whether given counts are those of a funnel's levels, by one walk from their end, with the same truth as computing them.
ghost use Rattle.std.specs.Prelude.{◌≡◌, true, false, ℕ, ◌+◌, ◌-◌, ◌<◌, ◌≤◌, length, take, drop, replicate};
ghost use Rattle.geometry.specs.Says.{Says};
ghost use Rattle.geometry.specs.Counts.{low, low_sum, Counts};
ghost use Rattle.geometry.specs.Funnel.{PlanCounts};
ghost use Rattle.geometry.specs.Chain.{Step, Chain, FirstStep};

use geometry_parts::counts::{
    maximum_next_bucket_count, maximum_path_sum_at_least, minimum_next_bucket_count,
    minimum_path_sum_at_most,
};

// Whether the counts in front are those of t buckets over the levels, the first as given, and the entries behind them 0.
pub fn plan_counts_hold(t: u64, levels: usize, first: u64, counts: &[u64; 118]) -> bool
    requires { (0 < levels) × (levels ≤ 118) }
    ensures { Says result (PlanCounts t levels first counts.now) }
{
    counts[0] == first && zero_from(counts, levels) && counts_hold(t, levels, counts)
}

// Whether the entries from one on are 0. It reads them all, so that the compiler reads several at once.
fn zero_from(counts: &[u64], from: usize) -> bool
    requires { from ≤ length counts.now }
    ensures { Says result (drop from counts.now ≡ replicate (length counts.now - from) 0) }
{
    let mut others = 0;
    for count in &counts[from..] {
        others |= *count;
    }
    others == 0
}

// Whether the counts in front are those of t buckets over the levels.
fn counts_hold(t: u64, levels: usize, counts: &[u64]) -> bool
    requires { (0 < levels) × (levels ≤ length counts.now) }
    ensures { Says result (Counts t levels (take levels counts.now)) }
{
    chain_holds(t, levels, counts) && first_holds(t, levels, counts[0])
}

// Whether the counts are a chain of largest steps, with the sum t. Such a sum lies between the smallest and the largest
// path of every count, so that neither has to be summed.
fn chain_holds(t: u64, levels: usize, counts: &[u64]) -> bool
    requires { (0 < levels) × (levels ≤ length counts.now) }
    ensures { Says result (Chain t (take levels counts.now)) }
{
    let mut y = counts[levels - 1];
    if t < y {
        return false;
    }
    let mut sum = y;
    let mut lowest = true;
    for i in (1..levels).rev() {
        let x = counts[i - 1];
        if !step_holds(x, y, levels - i, sum, lowest) || t - sum < x {
            return false;
        }
        lowest = follows_low(lowest, x, y);
        sum += x;
        y = x;
    }
    sum == t
}

// Whether y may follow x, and no larger count may, with the sum of the levels from y on. Where these follow the smallest
// path to its end, nothing is left to test: one more at the start is past the sum.
fn step_holds(x: u64, y: u64, levels: usize, sum: u64, lowest: bool) -> bool
    requires { lowest ≡ true → sum < low_sum (y + 1) levels }
    ensures { Says result (Step x y levels sum) }
{
    let top = maximum_next_bucket_count(x);
    minimum_next_bucket_count(x) <= y
        && y <= top
        && (lowest || y == top || !minimum_path_sum_at_most(y + 1, levels, sum))
}

// Whether the smallest path that goes on from y has x before it.
fn follows_low(lowest: bool, x: u64, y: u64) -> bool
    ensures { result ≡ true → (lowest ≡ true) × (y ≡ low x) }
{
    lowest && y == minimum_next_bucket_count(x)
}

// Whether x is as near to a quarter of t as it can be.
fn first_holds(t: u64, levels: usize, x: u64) -> bool
    ensures { Says result (FirstStep t levels x) }
{
    let q = t / 4 + t % 4 / 3;
    if q < x {
        !maximum_path_sum_at_least(x - 1, levels, t)
    } else {
        x == q || !minimum_path_sum_at_most(x + 1, levels, t)
    }
}
