// Flags in a row: the first that is set, and all of them cleared.
ghost use Rattle.std.specs.Prelude.{◌≡◌, ◌≤◌, length, nat_eq, not};
ghost use Rattle.std.specs.List.{position};
ghost use Rattle.queue.specs.Level.{FirstSet, Wiped};

// The first place from `from` on whose byte is not 0, or `to`: the end stands for none and no Option, since callers compare with the end that they have.
pub fn first_set(b: &[u8], from: u64, to: u64) -> u64
    requires { (from ≤ to) × (to ≤ length b.now) }
    ensures { FirstSet b.now from to result }
{
    match first_place(&b[from as usize..to as usize]) {
        Some(place) => from + place as u64,
        None => to,
    }
}

// The first place of these flags that is not 0.
fn first_place(flags: &[u8]) -> Option<usize>
    ensures { result ≡ position (λ x. not (nat_eq x 0)) flags.now }
{
    flags.iter().position(|x| *x != 0)
}

// The bytes from `from` to below `to` become 0.
pub fn wipe(b: &mut [u8], from: u64, to: u64)
    requires { (from ≤ to) × (to ≤ length b.old) }
    ensures { Wiped b.old b.new from to }
{
    b[from as usize..to as usize].fill(0);
}
