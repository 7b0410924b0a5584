// Words lent as little-endian bytes.
ghost use Rattle.std.specs.Prelude.{◌≡◌, ◌+◌, ◌*◌, ◌≤◌, length, get_or};
ghost use Rattle.lent.specs.Lent.{words_of, word_count};

use words::bytes::read64;

// The word of a slot: eight byte reads that compile to one load.
pub fn word_at(words: &[u8], slot: u64) -> u64
    requires { slot * 8 + 8 ≤ length words.now }
    ensures { result ≡ get_or (words_of words.now) slot 0 }
{
    let at = slot as usize;
    read64(words, at * 8)
}

// How many entries so many bytes lend.
pub fn word_count(len: u64) -> u64
    ensures { result ≡ word_count len }
{
    if len % 8 == 0 {
        return len / 8;
    }
    0
}
