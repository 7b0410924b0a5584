// The four calls of a queue of numbers below m, which lies in the bytes from `at` on. The buffer holds more than the queue, and each call promises
// that the rest stays as it was (`Kept`): so it is lent whole, with the queue's place and size beside it, and there is no view of a part.
ghost use Rattle.std.specs.Prelude.{true, false, ◌≡◌, ◌+◌, ◌≤◌, ◌<◌, length};
ghost use Rattle.queue.specs.Queue.{room, holds, Queue, Emptied, Changed, first_in};

use crate::level::{first_of, groups_of, settle};
use crate::scan::{first_set, wipe};

// The queue becomes empty, whatever the bytes were.
pub fn empty(b: &mut [u8], at: u64, m: u64)
    requires { at + room m ≤ length b.old }
    ensures { Emptied b.old b.new at m }
{
    let g = groups_of(m);
    let h = groups_of(g);
    wipe(b, at, at + m + g + h);
}

// Number i is in the queue now.
pub fn add(b: &mut [u8], at: u64, m: u64, i: u64)
    requires { Queue b.old at m × (i < m) }
    ensures { Changed true b.old b.new at m i }
{
    let g = groups_of(m);
    let middle = at + m;
    let top = middle + g;
    b[(at + i) as usize] = 1;
    b[(middle + i / 64) as usize] = 1;
    b[(top + i / 64 / 64) as usize] = 1;
}

// Number i is in the queue no longer.
pub fn remove(b: &mut [u8], at: u64, m: u64, i: u64)
    requires { Queue b.old at m × (i < m) }
    ensures { Changed false b.old b.new at m i }
{
    let g = groups_of(m);
    let middle = at + m;
    let top = middle + g;
    b[(at + i) as usize] = 0;
    settle(b, at, middle, m, i);
    settle(b, middle, top, g, i / 64);
}

// The smallest number in the queue, if it has one.
pub fn smallest(b: &[u8], at: u64, m: u64) -> Option<u64>
    requires { Queue b.now at m }
    ensures { result ≡ first_in (holds b.now at) 0 m }
{
    let g = groups_of(m);
    let h = groups_of(g);
    let middle = at + m;
    let top = middle + g;
    let found = first_set(b, top, top + h);
    if found == top + h {
        return None;
    }
    let j = first_of(b, middle, g, found - top);
    Some(first_of(b, at, m, j))
}
