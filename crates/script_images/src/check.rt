// CHECK n e seed cap COUNT ENTRIES: the check of a table that holds the entries. COUNT is the state's count; on entry
// marks hold 9 and order all ones.
use audit_calls::check::{CheckRefusal, check};
use refusal::Name;
use script::print::Refusal;
use script_funnel::runs::Held;
use text::buffers::{first_slots, word_buffer};
use text::out::Out;

// What a mark, and an entry of the order, hold on entry.
const MARK: u8 = 9;

const ONES: u64 = u64::MAX;

// The call on a table, and its answer.
pub(crate) fn run(table: &Held, out: &mut Out) {
    let mut order = word_buffer();
    let mut marks = io::large_buffer();
    let n = table.words.len() as u64;
    // The call has the first n entries of large buffers.
    if let Some((order, marks)) = first_slots(n, &mut order, &mut marks) {
        audited(table, marks, order, out);
    }
}

fn audited(table: &Held, marks: &mut [u8], order: &mut [u64], out: &mut Out) {
    marks.fill(MARK);
    order.fill(ONES);
    let answer = check(
        table.table,
        table.counts,
        table.words,
        table.flags,
        marks,
        order,
    );
    match answer {
        Ok(placed) => write!(out, "OK {placed}"),
        Err(refused) => write!(out, "{}", refusal_of(refused)),
    }
    match answer {
        Ok(placed) | Err(CheckRefusal::Disorder { placed, .. }) => {
            put_order(placed, order, out);
            put_kept(is_left(placed, marks, order), out);
        }
        Err(_) => put_kept(is_kept(marks, order), out),
    }
}

fn refusal_of(refused: CheckRefusal) -> Refusal {
    match refused {
        CheckRefusal::Disorder { placed, slot } => Refusal::Disorder { placed, slot },
        CheckRefusal::Dirty { slot } => Refusal::Valued(Name::Dirty, slot),
        CheckRefusal::Gate(gate) => Refusal::from(gate),
    }
}

// The order at an end, behind a space, or `-` for none.
fn put_order(placed: u64, order: &[u64], out: &mut Out) {
    out.byte(b' ');
    if placed == 0 {
        out.byte(b'-');
    }
    out.joined(placed, order);
}

// Whether, at an end, marks and the order's tail are as they must be left.
fn is_left(placed: u64, marks: &[u8], order: &[u64]) -> bool {
    marks.iter().all(|mark| *mark <= 1) && order.iter().skip(placed as usize).all(|x| *x == ONES)
}

// Whether marks and order are as on entry.
fn is_kept(marks: &[u8], order: &[u64]) -> bool {
    marks.iter().all(|mark| *mark == MARK) && order.iter().all(|x| *x == ONES)
}

// What stands behind an answer where a buffer is not as it must be.
pub(crate) fn put_kept(is_kept: bool, out: &mut Out) {
    if !is_kept {
        out.put(b" CHANGED");
    }
}
