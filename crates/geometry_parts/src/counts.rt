// The bucket counts of a funnel's levels: what may follow a count, the first count, and all of them.
// Carries the Rust's `nearest_feasible_first_count`, `select_largest_feasible_next` and their helpers.
//
// That there is a level, 0 < levels, stands in each contract: as a type of nonzero numbers it would be taken out again in every range and every index.
ghost use Rattle.std.specs.Prelude.{◌≡◌, ℕ, ◌<◌, ◌≤◌, leb, length};
ghost use Rattle.geometry.specs.Extreme.{IsLargest, IsSmallest};
ghost use Rattle.geometry.specs.Counts.{low, high, low_sum, high_sum, Follows, First};
ghost use Rattle.geometry.specs.Filled.{Fits, Filled};

// The counts of the levels, for at least as many buckets, at the front of a slice.
pub fn fill_counts(t: u64, levels: usize, counts: &mut [u64])
    requires { (0 < levels) × (levels ≤ length counts.old) × (levels ≤ t) }
    ensures { Filled t levels counts.old counts.new }
{
    let first = nearest_feasible_first_count(t, levels);
    counts[0] = first;
    let mut cur = first;
    let mut rem = t - first;
    for i in 1..levels {
        let next = select_largest_feasible_next(cur, levels - i, rem);
        counts[i] = next;
        rem -= next;
        cur = next;
    }
}

// The first count: a quarter of the buckets, rounded, between its two bounds. The quarter's own paths tell whether it
// serves, and else on which side of it the bound lies.
fn nearest_feasible_first_count(t: u64, levels: usize) -> u64
    requires { (0 < levels) × (levels ≤ t) }
    ensures { First t levels result }
{
    let q = t / 4 + t % 4 / 3;
    if maximum_path_sum_at_least(q, levels, t) {
        if minimum_path_sum_at_most(q, levels, t) {
            return q;
        }
        return largest_within(t, levels, q);
    }
    smallest_reaching(t, levels, q)
}

// The smallest count whose largest path reaches t; that of q does not. No index is counted: the range is halved.
fn smallest_reaching(t: u64, levels: usize, q: u64) -> u64
    requires { (0 < levels) × (high_sum q levels < t) }
    ensures { IsSmallest (λ y. t ≤ high_sum y levels) result }
{
    let mut lo = q + 1;
    let mut hi = t;
    while lo < hi {
        let mid = lo + (hi - lo) / 2;
        if maximum_path_sum_at_least(mid, levels, t) {
            hi = mid;
        } else {
            lo = mid + 1;
        }
    }
    lo
}

// The largest count whose smallest path stays within t; that of q does not. The range is halved here too.
fn largest_within(t: u64, levels: usize, q: u64) -> u64
    requires { (0 < levels) × (levels ≤ t) × (t < low_sum q levels) × (q ≤ t) }
    ensures { IsLargest (λ y. low_sum y levels ≤ t) result }
{
    let mut lo = 1;
    let mut hi = q - 1;
    while lo < hi {
        let mid = hi - (hi - lo) / 2;
        if minimum_path_sum_at_most(mid, levels, t) {
            lo = mid;
        } else {
            hi = mid - 1;
        }
    }
    lo
}

// The largest count that may follow x, with a sum that can be met. The bounds leave three, and the smallest path of one
// tells: that its largest path reaches the sum needs no test.
fn select_largest_feasible_next(x: u64, levels: usize, sum: u64) -> u64
    requires { (0 < levels) × Fits x levels sum }
    ensures { IsLargest (Follows x levels sum) result }
{
    let top = maximum_next_bucket_count(x);
    if minimum_path_sum_at_most(top, levels, sum) {
        return top;
    }
    if minimum_path_sum_at_most(top - 1, levels, sum) {
        return top - 1;
    }
    minimum_next_bucket_count(x)
}

// Whether the smallest path from x over the levels has no more than the sum.
pub fn minimum_path_sum_at_most(x: u64, levels: usize, sum: u64) -> bool
    ensures { result ≡ leb (low_sum x levels) sum }
{
    let mut cur = x;
    let mut rem = sum;
    for _ in 0..levels {
        if rem < cur {
            return false;
        }
        rem -= cur;
        cur = minimum_next_bucket_count(cur);
    }
    true
}

// Whether the largest path from x over the levels has no less than the sum.
pub fn maximum_path_sum_at_least(x: u64, levels: usize, sum: u64) -> bool
    ensures { result ≡ leb sum (high_sum x levels) }
{
    let mut cur = x;
    let mut rem = sum;
    for _ in 0..levels {
        if rem <= cur {
            return true;
        }
        rem -= cur;
        cur = maximum_next_bucket_count(cur);
    }
    rem == 0
}

// The smallest count that may follow x. The form is short from x to the result: walks along a path wait for it.
pub fn minimum_next_bucket_count(x: u64) -> u64
    ensures { result ≡ low x }
{
    if x <= 2 { 1 } else { x - 1 - x / 4 }
}

// The largest count that may follow x, as short: above 0, ceil(x/4) is floor((x-1)/4) + 1.
pub fn maximum_next_bucket_count(x: u64) -> u64
    ensures { result ≡ high x }
{
    if x == 0 { 0 } else { x - (x - 1) / 4 }
}
