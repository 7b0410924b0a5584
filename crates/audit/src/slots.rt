// Searches for the smallest slot with some property.
ghost use Rattle.std.specs.Prelude.{◌≡◌, ◌≤◌, length};
ghost use Rattle.funnel.specs.Dirty.{dirty_at};
ghost use Rattle.audit.specs.Greedy.{first_from, unplaced};

use lent::store::Stored;

// DIRTY: the smallest of n slots whose flag is above 1, or that is vacant with a nonzero word.
pub fn first_dirty<E: Stored>(words: &[E], flags: &[u8], n: u64) -> Option<u64>
    requires { (n ≤ length (E.words words.now)) × (n ≤ length flags.now) }
    ensures { result ≡ first_from (dirty_at (E.words words.now) flags.now) 0 n }
{
    for slot in 0..n {
        let flag = flags[slot as usize];
        if flag == 0 {
            if E::word(words, slot) != 0 {
                return Some(slot);
            }
        } else if 1 < flag {
            return Some(slot);
        }
    }
    None
}

// The smallest of n slots that is occupied and not placed.
pub fn first_unplaced(flags: &[u8], marks: &[u8], n: u64) -> Option<u64>
    requires { (n ≤ length flags.now) × (n ≤ length marks.now) }
    ensures { result ≡ first_from (unplaced flags.now marks.now) 0 n }
{
    for slot in 0..n {
        let s = slot as usize;
        if flags[s] != 0 && marks[s] == 0 {
            return Some(slot);
        }
    }
    None
}
