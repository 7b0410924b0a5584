// The large arrays of the programs. Each comes from a function whose contract gives its length, which lending it as a slice
// needs: the checker then need not count the elements. They are arrays, since the programs take no heap.
ghost use Rattle.std.specs.Prelude.{◌≡◌, length, IfSome};

// The most slots that a table has in a program.
pub const MOST_SLOTS: u64 = 65536;

// The longest image of such a table: fields 1 to 3 (29 bytes), a label (67), 65,536 entries in 17 fields, field 6 (11).
pub const MOST_BYTES: usize = 1048734;

// A word for each slot of the largest table.
pub fn word_buffer() -> [u64; 65536]
    ensures { 65536 ≡ length result }
{
    [0; 65536]
}

// Room for the longest image and one byte more, which tells a longer one.
pub fn image_buffer() -> [u8; 1048735]
    ensures { 1048735 ≡ length result }
{
    [0; 1048735]
}

// What a table of n slots takes of buffers of words and of flags, or none where they have fewer.
pub fn first_slots<'a>(
    n: u64,
    words: &'a mut [u64],
    flags: &'a mut [u8],
) -> Option<(&'a mut [u64], &'a mut [u8])>
    ensures { IfSome result (λ first. (length first.0.now ≡ n) × (length first.1.now ≡ n)) }
{
    let n = n as usize;
    Some((words.get_mut(..n)?, flags.get_mut(..n)?))
}
