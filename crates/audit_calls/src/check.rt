// The check, and what it answers.
ghost use Rattle.std.specs.Prelude.{◌≡◌, length};
ghost use Rattle.audit_calls.specs.declared.check.CheckRefusal.TheVariants.{Gate};
ghost use Rattle.audit_calls.specs.Check.{ended, take_all, audit_of, check_gate, check_of};
ghost use Rattle.funnel.specs.Viewed.{slots_in};

use audit::slots::{first_dirty, first_unplaced};
use audit_pass::pass::take_members;
use funnel::table::FunnelTable;
use funnel::view::View;
use funnel_calls::calls::table_gate;
use lent::store::Stored;
use refusal::Gate;

// Why an image is refused: stuck, with the number placed and the smallest occupied slot that is not; the smallest dirty slot; or a refusal of
// the gate.
#[derive(Clone, Copy)]
pub enum CheckRefusal {
    Disorder { placed: u64, slot: u64 },
    Dirty { slot: u64 },
    Gate(Gate),
}

impl From<Gate> for CheckRefusal {
    ghost from_gives = { λ gate gives. gives ≡ Gate gate };

    fn from(gate: Gate) -> CheckRefusal {
        CheckRefusal::Gate(gate)
    }
}

// The check of an image: how many members were placed, where all were. Marks and order are lent, n entries each. It leaves 1 in the marks of the
// placed slots and 0 in the others, and the placed slots in the order they were taken, first in `order`; a refusal other than DISORDER writes
// nothing.
pub fn check(
    table: FunnelTable,
    counts: &[u64; 118],
    words: &[u64],
    flags: &[u8],
    marks: &mut [u8],
    order: &mut [u64],
) -> Result<u64, CheckRefusal>
    ensures { ended result marks.new order.new ≡ check_of table counts.now words.now flags.now marks.old order.old }
{
    check_gate(
        table,
        counts,
        words.len() as u64,
        flags.len() as u64,
        marks.len() as u64,
        order.len() as u64,
    )?;
    let view = View {
        table: &table,
        counts,
        words,
        flags,
    };
    audit(&view, marks, order)
}

// The tests 1 to 7, with the lengths of the two lent buffers.
pub fn check_gate(
    table: FunnelTable,
    counts: &[u64; 118],
    words: u64,
    flags: u64,
    marks: u64,
    order: u64,
) -> Result<(), Gate>
    ensures { result ≡ check_gate table counts.now words flags marks order }
{
    table_gate(table, counts, words, flags)?;
    if marks != table.n || order != table.n {
        return Err(Gate::State);
    }
    Ok(())
}

// The check of a state that passed.
pub fn audit<E: Stored>(
    view: &View<E>,
    marks: &mut [u8],
    order: &mut [E],
) -> Result<u64, CheckRefusal>
    requires { (length marks.old ≡ slots_in view.now) × (length (E.words order.old) ≡ slots_in view.now) }
    ensures { ended result marks.new (E.words order.new) ≡ audit_of view.now.table.now view.now.counts.now (E.words view.now.words.now) view.now.flags.now marks.old (E.words order.old) }
{
    if let Some(slot) = first_dirty(view.words, view.flags, view.table.n) {
        return Err(CheckRefusal::Dirty { slot });
    }
    place_members(view, marks, order)
}

// The check of an image that has no dirty slot.
fn place_members<E: Stored>(
    view: &View<E>,
    marks: &mut [u8],
    order: &mut [E],
) -> Result<u64, CheckRefusal>
    requires { (length marks.old ≡ slots_in view.now) × (length (E.words order.old) ≡ slots_in view.now) }
    ensures { ended result marks.new (E.words order.new) ≡ take_all view.now.table.now view.now.counts.now (E.words view.now.words.now) view.now.flags.now (E.words order.old) }
{
    let placed = take_members(view, marks, order);
    match first_unplaced(view.flags, marks, view.table.n) {
        Some(slot) => Err(CheckRefusal::Disorder { placed, slot }),
        None => Ok(placed),
    }
}
