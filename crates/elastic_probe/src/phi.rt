// phi: the position of a level and a probe in the order in which an elastic query reads, both counted from 1.
ghost use Rattle.std.specs.Prelude.{◌≡◌, ◌+◌, ◌*◌, ◌^◌, ◌<◌, ◌≤◌};
ghost use Rattle.elastic_probe.specs.Length.{bits_of};
ghost use Rattle.elastic_probe.specs.Phi.{pairs};
ghost use Rattle.elastic_probe.specs.Position.{position_of, bounded_of, coordinates_of};
ghost use Rattle.elastic_probe.specs.Spread.{spread_of};
ghost use Rattle.elastic_probe.specs.Wide.{wide_of};

use crate::wide::{bit_at, bits, low_bits, with_bit};
use words::power::bit_length;
use words::product::Wide;

// The coordinate that was zero.
#[derive(Clone, Copy)]
pub enum Coordinate {
    I,
    J,
}

// Why there is no position.
#[derive(Clone, Copy)]
pub enum PhiRefusal {
    Coord(Coordinate),
    Overflow,
}

// The coordinates of a position.
#[derive(Clone, Copy)]
pub struct Coordinates {
    pub i: Wide,
    pub j: u64,
}

// For each bit of j from the top, a 1 then that bit; then 0; then i from its top bit.
pub fn phi(i: Wide, j: u64) -> Result<Wide, PhiRefusal>
    ensures { result ≡ position_of (wide_of i) j }
{
    let i_bits = bits(i);
    if i_bits == 0 {
        return Err(PhiRefusal::Coord(Coordinate::I));
    }
    let j_bits = bit_length(j);
    if j_bits == 0 {
        return Err(PhiRefusal::Coord(Coordinate::J));
    }
    if 128 < 2 * j_bits + 1 + i_bits {
        return Err(PhiRefusal::Overflow);
    }
    Ok(with_pairs(i, i_bits + 1, j))
}

// The pairs of j's bits before the places below `place`, which hold x.
fn with_pairs(x: Wide, place: u64, j: u64) -> Wide
    requires { (wide_of x < 2 ^ place) × (place + 2 * bits_of j ≤ 128) }
    ensures { wide_of result ≡ pairs (bits_of j) j * 2 ^ place + wide_of x }
{
    let mut out = x;
    for k in 0..bit_length(j) {
        let at = place + 2 * k;
        out = with_bit(with_bit(out, (j >> k) % 2, at), 1, at + 1);
    }
    out
}

// "j to 65,535"
const BOUNDED_J: u64 = 65535;

// phi in one word, for the coordinates that a table of 01's sizes has: j's bits are spread by shifts, not one by one.
pub fn phi_bounded(i: u32, j: u64) -> Result<u64, PhiRefusal>
    ensures { result ≡ bounded_of i j }
{
    if i == 0 {
        return Err(PhiRefusal::Coord(Coordinate::I));
    }
    if j == 0 {
        return Err(PhiRefusal::Coord(Coordinate::J));
    }
    if BOUNDED_J < j {
        return Err(PhiRefusal::Overflow);
    }
    let low = i as u64;
    let j_bits = bit_length(j);
    let i_bits = bit_length(low);
    if 64 < 2 * j_bits + 1 + i_bits {
        return Err(PhiRefusal::Overflow);
    }
    let marks = 0xaaaa_aaaa % (1u64 << (2 * j_bits));
    let pairs = spread(j) + marks;
    Ok((pairs << (i_bits + 1)) | low)
}

// Each of 16 bits to every second place.
fn spread(j: u64) -> u64
    requires { j < 65536 }
    ensures { result ≡ spread_of 16 j }
{
    let a = (j | (j << 8)) & 0x00ff_00ff;
    let b = (a | (a << 4)) & 0x0f0f_0f0f;
    let c = (b | (b << 2)) & 0x3333_3333;
    (c | (c << 1)) & 0x5555_5555
}

// The coordinates of a position, if it has any: its bits are read from the top. A pair that starts with 1 holds a bit of j, whose first
// is 1; a 0 ends them, and what is left is i, whose first bit is 1 too.
pub fn phi_inverse(position: Wide) -> Option<Coordinates>
    ensures { result ≡ coordinates_of (wide_of position) }
{
    let length = bits(position);
    if length < 2 {
        return None;
    }
    let mut left = length - 2;
    if bit_at(position, left) == 0 {
        return None;
    }
    let mut j = 1;
    // The places go down two at a time, and each turn reads both: a `for` over a reversed range of every second place says no more.
    while 2 <= left {
        left -= 2;
        let bit = bit_at(position, left);
        if bit_at(position, left + 1) == 0 {
            if bit == 0 {
                return None;
            }
            return Some(Coordinates {
                i: low_bits(position, left + 1),
                j,
            });
        }
        j = 2 * j + bit;
    }
    None
}
