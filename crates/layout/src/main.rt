// layout: prints the layouts of tables. It reads lines `E n e` or `F n e` from standard input and prints, for each,
//
//     E n e maximum length:quota ..                          of an elastic table
//     F n e maximum alpha beta g width s first-count         of a funnel table
//     E n e R k, F n e R k                                   refusal number k
//     ?                                                      for any other line
//
// It holds one line at a time, so input of any length works.

#![tactic(auto)]

use geometry::elastic::elastic_plan;
use geometry_funnel::plan::funnel_plan;
use refusal::Gate;
use text::field::{Fields, decimal};
use text::line::{Answer, answer_lines};
use text::out::Out;

struct Layouts;

// What a line asks.
#[derive(Clone, Copy)]
enum Query {
    Elastic { n: u64, e: u32 },
    Funnel { n: u64, e: u32 },
}

fn main(rt: HostRuntime) {
    // "at most 64 bytes without the newline"; one byte more tells a longer line.
    answer_lines::<Layouts, _>(&mut rt.stdin(), &mut [0; 65]);
}

impl Answer for Layouts {
    const LONG: u8 = b'?';

    fn answer(line: &[u8], out: &mut Out) -> Option<()> {
        answer_query(parse(line)?, out);
        Some(())
    }
}

// What a line asks: a letter, and two plain decimals behind single spaces.
fn parse(line: &[u8]) -> Option<Query> {
    let mut fields = Fields::new(line);
    let letter = fields.next()?;
    let n = decimal(fields.next()?)?;
    let e = u32::try_from(decimal(fields.last()?)?).ok()?;
    match letter {
        b"E" => Some(Query::Elastic { n, e }),
        b"F" => Some(Query::Funnel { n, e }),
        _ => None,
    }
}

// Every answer begins with the query again.
fn answer_query(query: Query, out: &mut Out) {
    match query {
        Query::Elastic { n, e } => {
            write!(out, "E {n} {e}");
            elastic(n, e, out);
        }
        Query::Funnel { n, e } => {
            write!(out, "F {n} {e}");
            funnel(n, e, out);
        }
    }
}

fn put_refusal(gate: Gate, out: &mut Out) {
    let number = refusal::number(refusal::gate_name(gate));
    write!(out, " R {number}");
}

fn elastic(n: u64, e: u32, out: &mut Out) {
    let mut lengths = [0; 32];
    let mut quotas = [0; 32];
    match elastic_plan(n, e, &mut lengths, &mut quotas) {
        Err(gate) => put_refusal(gate, out),
        Ok(plan) => {
            write!(out, " {}", plan.maximum);
            out.pairs(plan.levels, &lengths, &quotas);
        }
    }
}

fn funnel(n: u64, e: u32, out: &mut Out) {
    match funnel_plan(n, e, &mut [0; 118]) {
        Err(gate) => put_refusal(gate, out),
        Ok(plan) => {
            write!(out, " {} {} {}", plan.maximum, plan.alpha, plan.beta);
            write!(
                out,
                " {} {}",
                plan.loglog_ceiling, plan.fallback_bucket_width
            );
            write!(out, " {} {}", plan.special_len, plan.first_bucket_count);
        }
    }
}
