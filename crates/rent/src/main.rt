// rent: prints how small a funnel table for a number of cells can be. It reads lines `count e` or `count e first last` from standard
// input and prints, for each,
//
//     count e first last n maximum wasted words flags     the smallest n from first to last that takes count cells
//     count e first last R k                              refusal number k; 27 where there is none
//     ?                                                   for any other line
//
// where first is 2 and last 2^32 if the line has none; maximum is the most cells of that table, wasted its slots that stay empty with
// count cells in it, words and flags the bytes to lend it. Numbers are decimal, or 0x and hexadecimal digits, with single spaces between.
//
// It holds one line at a time, so input of any length works.

#![tactic(auto)]

ghost use Rattle.std.specs.Prelude.{◌≤◌};

use geometry::config::LARGEST_N;
use geometry_smallest::smallest::{SmallestRefusal, smallest_funnel};
use refusal::Name;
use text::field::Fields;
use text::line::{Answer, answer_lines};
use text::out::Out;

struct Rents;

// Where a range begins if the line does not say so: "first below 2 is N".
const FIRST: u64 = 2;

// What a line asks.
#[derive(Clone, Copy)]
struct Query {
    count: u64,
    e: u32,
    first: u64,
    last: u64,
}

fn main(rt: HostRuntime) {
    // Four numbers and some leading zeros go into 128 bytes; one byte more tells a longer line.
    answer_lines::<Rents, _>(&mut rt.stdin(), &mut [0; 129]);
}

impl Answer for Rents {
    const LONG: u8 = b'?';

    // As layout's: one function for both would take the two calls in it from each program.
    fn answer(line: &[u8], out: &mut Out) -> Option<()> {
        answer_query(parse(line)?, out);
        Some(())
    }
}

fn parse(line: &[u8]) -> Option<Query> {
    let [count, e, first, last] = asked(Fields::new(line))?;
    Some(Query {
        count,
        e: u32::try_from(e).ok()?,
        first,
        last,
    })
}

// What a line asks: two numbers, or four.
fn asked(fields: Fields) -> Option<[u64; 4]> {
    let Some(two) = fields.just_numbers::<2>() else {
        return fields.just_numbers();
    };
    let [count, e] = two;
    Some([count, e, FIRST, LARGEST_N])
}

// Every answer begins with the question again.
fn answer_query(query: Query, out: &mut Out) {
    let Query {
        count,
        e,
        first,
        last,
    } = query;
    write!(out, "{count} {e} {first} {last}");
    match smallest_funnel(count, e, first, last, &mut [0; 118]) {
        Ok(found) => put_found(count, found.n, found.plan.maximum, out),
        Err(SmallestRefusal::Refused(gate)) => put_refusal(refusal::gate_name(gate), out),
        Err(SmallestRefusal::Nothing) => put_refusal(Name::None, out),
    }
}

// n, the most cells, the slots that stay empty, and the bytes to lend: eight to a word and one to a flag.
fn put_found(count: u64, n: u64, maximum: u64, out: &mut Out)
    requires { (count ≤ n) × (n ≤ 4294967296) }
{
    write!(out, " {n} {maximum} {}", n - count);
    write!(out, " {} {n}", 8 * n);
}

fn put_refusal(name: Name, out: &mut Out) {
    write!(out, " R {}", refusal::number(name));
}
