// The two passes over the slots. An ordinary slot depends on smaller slots only, so one rising pass takes those that can be taken;
// among the special slots a placement can free a smaller one, but no ordinary slot and nothing in the ordinary part of a path.
ghost use Rattle.std.specs.Prelude.{◌≡◌, ◌-◌, ◌≤◌, length, replicate};
ghost use Rattle.audit.specs.Greedy.{taken};
ghost use Rattle.audit.specs.Marked.{Listed};
ghost use Rattle.audit.specs.Verdicts.{Early};
ghost use Rattle.audit.specs.Viewed.{greedy_in, GoingIn};
ghost use Rattle.funnel.specs.Viewed.{slots_in, special_in};

use audit::restore::restore;
use audit::verdict::{judge, offer};
use audit_ready::ready::is_ready;
use audit_special::special::take_live;
use funnel::view::View;
use lent::store::Stored;
use words::clear::clear_bytes;

// Takes from empty marks what can be taken, in 01's order: how many.
pub fn take_members<E: Stored>(view: &View<E>, marks: &mut [u8], order: &mut [E]) -> u64
    requires { (length marks.old ≡ slots_in view.now) × (length (E.words order.old) ≡ slots_in view.now) }
    ensures { taken marks.new (E.words order.new) result ≡ greedy_in view.now (slots_in view.now) (replicate (slots_in view.now) 0) (E.words order.old) 0 }
{
    clear_bytes(marks);
    let start = view.table.n - view.table.plan.special_len;
    let ordinary = take_ordinary(view, marks, order, start);
    take_special(view, marks, order, start, ordinary)
}

// Takes what can be taken of the slots below the special part: how many.
fn take_ordinary<E: Stored>(view: &View<E>, marks: &mut [u8], order: &mut [E], start: u64) -> u64
    requires { (length marks.old ≡ slots_in view.now) × (length (E.words order.old) ≡ slots_in view.now) × (start ≡ special_in view.now) × (start ≤ slots_in view.now) × Early 0 marks.old }
    ensures { Early start marks.new × GoingIn view.now (greedy_in view.now (slots_in view.now) marks.old (E.words order.old) 0) marks.new (E.words order.new) result start }
{
    let mut placed = 0;
    for slot in 0..start {
        if is_ready(view, marks, placed, slot) {
            marks[slot as usize] = 1;
            E::put(order, placed, slot);
            placed += 1;
        }
    }
    placed
}

// Takes what can be taken of the special part, which starts at `start`: how many are placed then. The ordinary part of each path is
// read once, for the verdicts; from there on the ordinary marks are room for the turns, and in the end all marks are made again from
// the order.
fn take_special<E: Stored>(
    view: &View<E>,
    marks: &mut [u8],
    order: &mut [E],
    start: u64,
    before: u64,
) -> u64
    requires { (length marks.old ≡ slots_in view.now) × (start ≡ special_in view.now) × (start ≤ slots_in view.now) × Early start marks.old × GoingIn view.now (greedy_in view.now (slots_in view.now - before) marks.old (E.words order.old) before) marks.old (E.words order.old) before start × Listed (slots_in view.now) (greedy_in view.now (slots_in view.now - before) marks.old (E.words order.old) before) }
    ensures { taken marks.new (E.words order.new) result ≡ greedy_in view.now (slots_in view.now - before) marks.old (E.words order.old) before }
{
    judge(view, marks, start);
    offer(marks, start, view.table.plan.special_len);
    let placed = take_live(
        view.table,
        view.counts,
        view.words,
        view.flags,
        marks,
        order,
        start,
        before,
    );
    restore(marks, order, placed);
    placed
}
