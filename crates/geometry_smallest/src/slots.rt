// The smallest n that a count asks for: where the search starts. Bounds of n and e stay in the contracts, as `geometry_parts`, special.rt, says.
ghost use Rattle.std.specs.Prelude.{◌≡◌, ◌<◌, ◌≤◌, ◌^◌};
ghost use Rattle.geometry_smallest.specs.Slots.{Needed, Start};

// Where to start: from `first` on, with room for the count, and above the n that are too small for any layout.
pub fn start_slots(count: u64, e: u64, first: u64) -> u64
    requires { (count ≤ 4294967296) × (0 < e) × (e ≤ 27) }
    ensures { Start count e first result }
{
    needed_slots(count, e).max(first).max(17)
}

// The smallest n whose maximum is at least the count.
fn needed_slots(count: u64, e: u64) -> u64
    requires { (count ≤ 4294967296) × (0 < e) × (e ≤ 27) }
    ensures { Needed count e result }
{
    if count == 0 {
        return 0;
    }
    count + (count - 1) / (power_of_two(e) - 1)
}

// 2^k.
pub fn power_of_two(k: u64) -> u64
    requires { k < 64 }
    ensures { result ≡ 2 ^ k }
{
    1 << k
}
