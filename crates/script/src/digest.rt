// The digest of a table.
use std::fmt;
use std::fmt::Display;
use words::product::multiply;

// FNV-1a, 64 bits.
const BASIS: u64 = 0xcbf29ce484222325;

const PRIME: u64 = 0x100000001b3;

// A digest so far.
#[derive(Clone, Copy)]
struct Hash(u64);

impl Hash {
    // With the eight bytes of a word, the lowest first.
    fn word(self, word: u64) -> Hash {
        let mut hash = self.0;
        for b in word.to_le_bytes() {
            hash = multiply(hash ^ u64::from(b), PRIME);
        }
        Hash(hash)
    }
}

// The digest of slot and identity of the occupied slots, in rising order.
#[derive(Clone, Copy)]
pub struct Digest<'a> {
    pub words: &'a [u64],
    pub flags: &'a [u8],
}

impl<'a> Digest<'a> {
    fn hash(&self) -> Hash {
        let mut hash = Hash(BASIS);
        for (slot, (word, flag)) in self.words.iter().zip(self.flags).enumerate() {
            if *flag != 0 {
                hash = hash.word(slot as u64).word(*word);
            }
        }
        hash
    }
}

impl<'a> Display for Digest<'a> {
    fn fmt<W: fmt::Write>(&self, f: &mut fmt::Formatter<W>) -> fmt::Result {
        write!(f, "{:016x}", self.hash().0)
    }
}
