// Products of two words, from halves of 32 bits: the compiler makes one multiplication of each.
ghost use Rattle.std.specs.Prelude.{◌≡◌, ◌+◌, ◌*◌, ◌%◌, ◌/◌, ◌^◌};

const P: u64 = 0x1_0000_0000;

// A number of two words, hi * 2^64 + lo: a product, a position or a coordinate of up to 128 bits.
#[derive(Clone, Copy, Debug, PartialEq, Eq)]
pub struct Wide {
    pub hi: u64,
    pub lo: u64,
}

// a * b, modulo 2^64.
pub fn multiply(a: u64, b: u64) -> u64
    ensures { result ≡ a * b % 2 ^ 64 }
{
    let a0 = a % P;
    let a1 = a / P;
    let b0 = b % P;
    let b1 = b / P;
    let low = a0 * b0;
    let mid = (a1 * b0) % P + (a0 * b1) % P + low / P;
    mid % P * P + low % P
}

// The upper half of a * b. (Taking the lower half out of the same columns costs a second multiplication.)
pub fn multiply_high(a: u64, b: u64) -> u64
    ensures { result ≡ a * b / 2 ^ 64 }
{
    let a0 = a % P;
    let a1 = a / P;
    let b0 = b % P;
    let b1 = b / P;
    let t = a1 * b0 + a0 * b0 / P;
    let w = t % P + a0 * b1;
    a1 * b1 + t / P + w / P
}

// Both halves of a * b.
pub fn multiply_wide(a: u64, b: u64) -> Wide
    ensures { (result.hi ≡ a * b / 2 ^ 64) × (result.lo ≡ a * b % 2 ^ 64) }
{
    Wide {
        hi: multiply_high(a, b),
        lo: multiply(a, b),
    }
}
