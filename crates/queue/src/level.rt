// One level of flags over another: k flags from `low` on, and a flag for each 64 of them from `up` on.
ghost use Rattle.std.specs.Prelude.{◌≡◌, ◌+◌, ◌/◌, ◌≤◌, ◌<◌, length};
ghost use Rattle.queue.specs.Level.{groups, GroupEnd, InGroup, Nearly, Settled};

use crate::scan::first_set;

// How many groups of 64 cover k flags. No sum here can wrap.
pub fn groups_of(k: u64) -> u64
    ensures { result ≡ groups k }
{
    k / 64 + (k % 64 + 63) / 64
}

// The first of group j that is set, or k, which is no flag: as with `first_set`, callers compare with it.
pub fn first_of(b: &[u8], low: u64, k: u64, j: u64) -> u64
    requires { (low + k ≤ length b.now) × (j < groups k) }
    ensures { InGroup b.now low k j result }
{
    let end = group_end(k, j);
    let to = low + end;
    let found = first_set(b, low + j * 64, to);
    if found < to {
        return found - low;
    }
    k
}

// Where group j of k flags ends.
fn group_end(k: u64, j: u64) -> u64
    requires { j < groups k }
    ensures { GroupEnd k j result }
{
    if k - j * 64 < 64 {
        return k;
    }
    j * 64 + 64
}

// After flag x was cleared: its group's flag is cleared too, where no flag of the group is left.
pub fn settle(b: &mut [u8], low: u64, up: u64, k: u64, x: u64)
    requires { Nearly b.old low up k x × (x < k) × (low + k ≤ up) × (up + groups k ≤ length b.old) }
    ensures { Settled b.old b.new low up k x }
{
    if b[(low + x) as usize] != 0 {
        return;
    }
    if first_of(b, low, k, x / 64) < k {
        return;
    }
    b[(up + x / 64) as usize] = 0;
}
