// Bits of numbers of two words, for positions and coordinates of up to 128 bits.
ghost use Rattle.std.specs.Prelude.{◌≡◌, ◌+◌, ◌*◌, ◌/◌, ◌%◌, ◌^◌, ◌<◌};
ghost use Rattle.elastic_probe.specs.Length.{bits_of};
ghost use Rattle.elastic_probe.specs.Wide.{wide_of};

use words::power::bit_length;
use words::product::Wide;

// The length in bits.
pub(crate) fn bits(x: Wide) -> u64
    ensures { result ≡ bits_of (wide_of x) }
{
    if x.hi == 0 {
        return bit_length(x.lo);
    }
    64 + bit_length(x.hi)
}

// The bit at place k.
pub(crate) fn bit_at(x: Wide, k: u64) -> u64
    requires { k < 128 }
    ensures { result ≡ wide_of x / 2 ^ k % 2 }
{
    if k < 64 {
        return (x.lo >> k) % 2;
    }
    (x.hi >> (k - 64)) % 2
}

// The k low bits.
pub(crate) fn low_bits(x: Wide, k: u64) -> Wide
    requires { k < 128 }
    ensures { wide_of result ≡ wide_of x % 2 ^ k }
{
    if k < 64 {
        return Wide {
            hi: 0,
            lo: x.lo % (1 << k),
        };
    }
    Wide {
        hi: x.hi % (1 << (k - 64)),
        lo: x.lo,
    }
}

// A number below 2^k with one more bit, at place k.
pub(crate) fn with_bit(x: Wide, bit: u64, k: u64) -> Wide
    requires { (bit < 2) × (k < 128) × (wide_of x < 2 ^ k) }
    ensures { wide_of result ≡ bit * 2 ^ k + wide_of x }
{
    if k < 64 {
        return Wide {
            hi: x.hi,
            lo: x.lo + (bit << k),
        };
    }
    Wide {
        hi: x.hi + (bit << (k - 64)),
        lo: x.lo,
    }
}
