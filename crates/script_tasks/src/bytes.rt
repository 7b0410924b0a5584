// Bytes as pairs of hexadecimal digits, in fields and in answers.
ghost use Rattle.std.specs.Prelude.{◌≤◌, length};

use text::out::Out;

const DIGITS: [u8; 16] = *b"0123456789abcdef";

// Whether a field is bytes: pairs of digits, at least one, or `-` for none.
pub fn are_bytes(field: &[u8]) -> bool {
    let are_pairs = !field.is_empty() && field.len() % 2 == 0;
    field == b"-".as_slice() || are_pairs && field.iter().all(|b| b.is_ascii_hexdigit())
}

// The bytes that a field spells, as many as go in; how many these are.
pub fn spell(field: &[u8], into: &mut [u8]) -> usize
    ensures { result ≤ length into.new }
{
    let count = (field.len() / 2).min(into.len());
    for (b, pair) in into.iter_mut().zip(field.chunks_exact(2)) {
        *b = digit(pair[0]) << 4 | digit(pair[1]);
    }
    count
}

// A digit's number; 0 for another byte, of which `are_bytes` leaves none. No `to_digit`: a LOAD of 240,000 bytes then takes half as
// long again.
fn digit(b: u8) -> u8 {
    match b {
        b'0'..=b'9' => b - b'0',
        b'a'..=b'f' => b - b'a' + 10,
        b'A'..=b'F' => b - b'A' + 10,
        _ => 0,
    }
}

// Bytes as pairs of digits, in small letters. No `{:02x}`: a WRITE of 480,000 bytes then takes three times as long.
pub fn put_bytes(bytes: &[u8], out: &mut Out) {
    for b in bytes {
        out.byte(DIGITS[usize::from(b / 16)]);
        out.byte(DIGITS[usize::from(b % 16)]);
    }
}
