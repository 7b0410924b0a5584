// The configuration: n slots, reserve 2^-e. Carries the Rust's `PaperConfig`.
ghost use Rattle.std.specs.Prelude.{◌≡◌};
ghost use Rattle.geometry.specs.Config.{config_gate, maximum};

use refusal::Gate;
use words::power::floor_div_pow2;

// "n from 2 to 4,294,967,296"
pub const LARGEST_N: u64 = 4294967296;

// The tests that every layout begins with, in their order: N, ZEROEXP, SIZE.
#[tactic(auto, unfolding(crate::specs::Config::config_then))]
pub fn config_gate(n: u64, e: u32) -> Result<(), Gate>
    ensures { result ≡ config_gate n e }
{
    if n < 2 {
        return Err(Gate::N);
    }
    if e == 0 {
        return Err(Gate::ZeroExp);
    }
    if LARGEST_N < n {
        return Err(Gate::Size);
    }
    Ok(())
}

// The largest number of members that a table takes.
pub fn max_insertions(n: u64, e: u32) -> u64
    ensures { result ≡ maximum n e }
{
    n - floor_div_pow2(n, e as u64)
}
