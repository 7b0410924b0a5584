// A lower bound on the n that have a layout. Carries `funnel_minimum_slots` of the Rust.
ghost use Rattle.std.specs.Prelude.{◌*◌, ◌<◌, ◌≤◌};
ghost use Rattle.geometry_smallest.specs.Minimum.{Minimum, Required};

use crate::slots::power_of_two;
use geometry_parts::special::base_two_loglog_ceiling;

// The smallest n from `from` on, a word, whose upper bound of the special length holds two fallback buckets. These grow with n, so the
// bound is raised until it holds; no exponent above 61 has one.
pub fn funnel_minimum_slots(e: u32, from: u64) -> Option<u64>
    ensures { Minimum e from result }
{
    if 61 < e {
        return None;
    }
    let power = power_of_two(e as u64 + 2);
    let mut n = from;
    loop {
        let need = required_slots(base_two_loglog_ceiling(n), power)?;
        if need <= n {
            return Some(n);
        }
        n = need;
    }
}

// ceil(4g * power / 3), or None where this is above 2^64 - 1: by a third of the power, so that no product is too large.
fn required_slots(g: u64, power: u64) -> Option<u64>
    requires { (1 ≤ g) × (g ≤ 6) × (4 ≤ power) }
    ensures { Required (4 * g) power result }
{
    let length = 4 * g;
    let third = power / 3;
    let rest = (length * (power % 3) + 2) / 3;
    length.checked_mul(third)?.checked_add(rest)
}
