// DIRTY: the smallest slot whose flag is above 1, or that is vacant and holds a nonzero word.
ghost use Rattle.std.specs.Prelude.{◌≡◌, ◌<◌, ◌≤◌, length, Ok, Err};
ghost use Rattle.image_writer.specs.Dirty.{scan_of};

use lent::store::Stored;

// The slots of a table, lent to be read: a word and a flag for each.
#[derive(Drop)]
pub struct Slots<'a, E: Stored> {
    pub words: &'a [E],
    pub flags: &'a [u8],
    pub ghost alike: { length (E.words words.now) ≡ length flags.now },
}

// The number of occupied slots of a table that has no dirty one, else the smallest dirty slot.
pub fn scan_table<E: Stored>(slots: &Slots<E>) -> Result<usize, usize>
    ensures { result ≡ scan_of (E.words slots.now.words.now) slots.now.flags.now }
{
    let (end, count) = scan(slots);
    if end < slots.flags.len() {
        return Err(end);
    }
    Ok(count)
}

// Where the scan ends, at the smallest dirty slot or behind the last one, and how many slots before that are occupied. It stays a call, so that its loop's jumps
// are short: inlined into the writing for C, the loop's end was a long one, and where that lies over a boundary of 32 bytes a slot took up to twice the time. Two
// numbers, since the loop of a Result sets its tag at every vacant slot.
#[inline(never)]
fn scan<E: Stored>(slots: &Slots<E>) -> (usize, usize)
    ensures { (result.0 < length slots.now.flags.now → Err result.0 ≡ scan_of (E.words slots.now.words.now) slots.now.flags.now) × (length slots.now.flags.now ≤ result.0 → Ok result.1 ≡ scan_of (E.words slots.now.words.now) slots.now.flags.now) }
{
    let words = slots.words;
    let flags = slots.flags;
    let mut count = 0;
    for slot in 0..flags.len() {
        let flag = flags[slot];
        if flag == 0 {
            if E::word(words, slot as u64) != 0 {
                return (slot, count);
            }
        } else {
            if 1 < flag {
                return (slot, count);
            }
            count += 1;
        }
    }
    (flags.len(), count)
}
