// What words are lent as: a slice of numbers, or a slice of little-endian bytes, eight to a word. The engine reads and writes words here alone; it is
// written once for every element that words are stored in, and compiled for each.
ghost use Rattle.std.specs.Prelude.{List, ℕ, ◌≡◌, ◌<◌, length, get_or, set, replicate};
ghost use Rattle.lent.specs.Lent.{whole_of};

use crate::word::word_at;
use words::bytes::write64;
use words::clear::{clear_bytes, clear_words};

// The elements that words are stored in.
pub trait Stored: Sized {
    // The words that a slice of such elements is.
    ghost words: { List Self → List ℕ };

    // How many words are lent.
    fn count(lent: &[Self]) -> u64
        ensures { result ≡ length (words lent.now) };

    // The word of a slot.
    fn word(lent: &[Self], slot: u64) -> u64
        requires { slot < length (words lent.now) }
        ensures { result ≡ get_or (words lent.now) slot 0 };

    // Stores the word of a slot.
    fn put(lent: &mut [Self], slot: u64, x: u64)
        requires { slot < length (words lent.old) }
        ensures { words lent.new ≡ set (words lent.old) slot x };

    // Every word becomes 0.
    fn clear(lent: &mut [Self])
        ensures { words lent.new ≡ replicate (length (words lent.old)) 0 };
}

impl Stored for u64 {
    ghost words = { λ numbers. numbers };

    fn count(lent: &[u64]) -> u64 {
        lent.len() as u64
    }

    fn word(lent: &[u64], slot: u64) -> u64 {
        lent[slot as usize]
    }

    fn put(lent: &mut [u64], slot: u64, x: u64) {
        lent[slot as usize] = x;
    }

    fn clear(lent: &mut [u64]) {
        clear_words(lent);
    }
}

impl Stored for u8 {
    ghost words = { whole_of };

    fn count(lent: &[u8]) -> u64 {
        lent.len() as u64 / 8
    }

    // Eight byte reads that compile to one load.
    fn word(lent: &[u8], slot: u64) -> u64 {
        word_at(lent, slot)
    }

    fn put(lent: &mut [u8], slot: u64, x: u64) {
        write64(lent, slot as usize * 8, x);
    }

    fn clear(lent: &mut [u8]) {
        clear_bytes(lent);
    }
}
