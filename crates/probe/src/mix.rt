// The finaliser of splitmix64.
ghost use Rattle.std.specs.Prelude.{◌≡◌};
ghost use Rattle.probe.specs.Mix.{mix64_of};

use words::product::multiply;

// x ^= x>>30, times BF58476D1CE4E5B9, x ^= x>>27, times 94D049BB133111EB, x ^= x>>31, modulo 2^64.
pub fn mix64(x: u64) -> u64
    ensures { result ≡ mix64_of x }
{
    let a = multiply(x ^ (x >> 30), 0xBF58476D1CE4E5B9);
    let b = multiply(a ^ (a >> 27), 0x94D049BB133111EB);
    b ^ (b >> 31)
}
