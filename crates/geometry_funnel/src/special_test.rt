// Whether a given length is the special length of a funnel, by its period, with the same truth as the search for it.
ghost use Rattle.std.specs.Prelude.{◌≡◌, ℕ, ◌*◌, ◌<◌, ◌≤◌};
ghost use Rattle.geometry.specs.Says.{Says};
ghost use Rattle.geometry.specs.Special.{IsPeriod, Measured, SpecialMeasured, loglog};

use geometry_parts::special::{special_least, special_most};

// Whether s is the special length of n and e, with `main` buckets before it and `half` buckets in its fallback.
pub fn special_parts_hold(n: u64, e: u64, g: u64, s: u64, main: u64, half: u64) -> bool
    requires { (n ≤ 4294967296) × (3 ≤ e) × (e ≤ 27) × (g ≡ loglog n) }
    ensures { Says result (SpecialMeasured n e s main half) }
{
    let lo = special_least(n, e, g);
    let hi = special_most(n, e);
    special_holds(n, lo, hi, e, 2 * g, s, main, half)
}

// Whether s is the largest of its range, with `main` buckets before it and `half` buckets in its fallback: both parts are
// filled, and one period more is past the range. Products stand where a division would.
fn special_holds(n: u64, lo: u64, hi: u64, h: u64, w: u64, s: u64, main: u64, half: u64) -> bool
    requires { (hi ≤ n) × (n ≤ 4294967296) × (0 < h) × (h ≤ 27) × (0 < w) × (w ≤ 10) × (2 ≤ lo) }
    ensures { Says result (Measured n lo hi (2 * h) w s main half) }
{
    let beta = 2 * h;
    lo <= s
        && s <= hi
        && main <= n
        && half <= n
        && main * beta == n - s
        && half * w == s / 2
        && hi - s < special_period(h, w) * beta
}

// The smallest number of buckets whose halves fill buckets of w: where a multiple of h meets a multiple of w.
fn special_period(h: u64, w: u64) -> u64
    requires { (0 < h) × (h ≤ 27) × (0 < w) × (w ≤ 10) }
    ensures { IsPeriod h w result }
{
    let mut k = 1;
    let mut a = h;
    let mut b = w;
    // Which of the two goes on shows in the turn; k tells which multiple of h is reached.
    while a != b {
        if a < b {
            a += h;
            k += 1;
        } else {
            b += w;
        }
    }
    k
}
