// The marks of the placed slots, made again from their order.
ghost use Rattle.std.specs.Prelude.{◌≡◌, ℕ, ◌≤◌, ◌<◌, length, get_or};
ghost use Rattle.audit.specs.Marked.{marks_of};

use lent::store::Stored;
use words::clear::clear_bytes;

// Sets the marks of the first `placed` slots of `order`, and clears all others.
pub fn restore<E: Stored>(marks: &mut [u8], order: &[E], placed: u64)
    requires { (placed ≤ length (E.words order.now)) × ((k : ℕ) → k < placed → get_or (E.words order.now) k 0 < length marks.old) }
    ensures { marks.new ≡ marks_of (length marks.old) (E.words order.now) placed }
{
    clear_bytes(marks);
    for k in 0..placed {
        let slot = E::word(order, k);
        marks[slot as usize] = 1;
    }
}
