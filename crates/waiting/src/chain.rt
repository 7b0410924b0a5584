// Chains of numbers that wait: cleared, added to, and taken off. A caller lends the bytes anew for each call, and each promises of all of them
// what stays as it was (`Filed`, `Popped`, `Woken`), so there is no struct that holds them. A link stays the number that lies in the bytes, 0 for
// none: it is copied from place to place as it is.
ghost use Rattle.std.specs.Prelude.{◌≤◌, ◌<◌, length};
ghost use Rattle.waiting.specs.Links.{space, Fits, Cleared, Filed, Popped};
ghost use Rattle.waiting.specs.Waiting.{Chained, Woken};

use queue::keep::{add, empty, remove};
use queue::scan::wipe;
use words::bytes::{read32, write32};

// Nothing waits, and there is no candidate, whatever the bytes were.
pub fn clear(b: &mut [u8], m: u64)
    requires { (space m ≤ length b.old) × (m < 4294967296) }
    ensures { Cleared b.old b.new m }
{
    wipe(b, 0, 8 * m);
    empty(b, 8 * m, m);
}

// Number c, a candidate no longer, waits on u: it goes to the head of the chain.
pub fn file(b: &mut [u8], m: u64, c: u64, u: u64)
    requires { Fits b.old m × (c < m) × (u < m) }
    ensures { Filed b.old b.new m c u }
{
    remove(b, 8 * m, m, c);
    let next = read32(b, (4 * u) as usize);
    write32(b, (4 * (m + c)) as usize, next);
    write32(b, (4 * u) as usize, c + 1);
}

// Every number that waits on c is a candidate now, and waits no longer. The loop is over a chain, whose end shows as it is taken off.
pub fn wake(b: &mut [u8], m: u64, c: u64)
    requires { Fits b.old m × (c < m) × Chained b.old m }
    ensures { Woken b.old b.new m c 0 }
{
    let mut head = read32(b, (4 * c) as usize);
    while head != 0 {
        pop(b, m, c, head - 1);
        head = read32(b, (4 * c) as usize);
    }
}

// Number x, the first that waits on c, is a candidate now.
fn pop(b: &mut [u8], m: u64, c: u64, x: u64)
    requires { Fits b.old m × (c < m) × (x < m) }
    ensures { Popped b.old b.new m c x }
{
    let next = read32(b, (4 * (m + x)) as usize);
    write32(b, (4 * c) as usize, next);
    add(b, 8 * m, m, x);
}
