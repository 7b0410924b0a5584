// Powers of two: the threshold of a range reduction, division at any exponent, and the logarithm rounded up.
ghost use Rattle.std.specs.Prelude.{◌≡◌, ◌+◌, ◌-◌, ◌*◌, ◌%◌, ◌/◌, ◌^◌, ◌<◌, ◌≤◌};
ghost use Rattle.words.specs.Log.{CeilLog2, ceil_log2};
ghost use Rattle.words.specs.Quotient.{ceil_div};

// 2^64 modulo u.
pub fn two64_mod(u: u64) -> u64
    requires { 0 < u }
    ensures { result ≡ 2 ^ 64 % u }
{
    (u64::MAX - u + 1) % u
}

// floor(x / 2^k), for any k.
pub fn floor_div_pow2(x: u64, k: u64) -> u64
    ensures { result ≡ x / 2 ^ k }
{
    if 64 <= k { 0 } else { x >> k }
}

// ceil(x / 2^k), for any k.
pub fn ceil_div_pow2(x: u64, k: u64) -> u64
    ensures { result ≡ ceil_div x (2 ^ k) }
{
    if x == 0 {
        return 0;
    }
    floor_div_pow2(x - 1, k) + 1
}

// The number of bits of x: none for 0, else one more than the position of the highest 1.
pub fn bit_length(x: u64) -> u64
    ensures { CeilLog2 (x + 1) result }
{
    64 - u64::leading_zeros(x) as u64
}

// The least k with n <= 2^k; of 0 and of 1 it is 0.
pub fn ceil_log2(n: u64) -> u64
    ensures { CeilLog2 n result }
{
    if n == 0 {
        return 0;
    }
    bit_length(n - 1)
}
