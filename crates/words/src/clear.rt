// Buffers set to zero. There are two functions and not one for every type, since each is one call of the library's: one for every type would
// need a trait that says which value is zero.
ghost use Rattle.std.specs.Prelude.{◌≡◌, length, replicate};

// Every word becomes 0.
pub fn clear_words(words: &mut [u64])
    ensures { words.new ≡ replicate (length words.old) 0 }
{
    words.fill(0);
}

// Every byte becomes 0.
pub fn clear_bytes(bytes: &mut [u8])
    ensures { bytes.new ≡ replicate (length bytes.old) 0 }
{
    bytes.fill(0);
}
