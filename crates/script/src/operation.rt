// Operations of a run: iID, qID or sID, oSLOT=ID, cLEVEL=COUNT, lCOUNT.
ghost use Rattle.std.specs.Prelude.{◌≡◌, ◌++◌, ◌∷◌, IfSome};
ghost use Rattle.std.specs.Iterator.{at_most};
ghost use Rattle.script.specs.Operations.{operations_left};

use probe::mix::mix64;
use text::field::{Fields, number};
use words::product::multiply;

// The increment of splitmix64.
const GOLDEN: u64 = 0x9E3779B97F4A7C15;

#[derive(Clone, Copy)]
pub enum Operation {
    Insert { identity: u64 },
    Ask { identity: u64 },
    Edit(Edit),
}

// What a state is set to, whatever its counts say.
#[derive(Clone, Copy)]
pub enum Edit {
    // An identity in a slot.
    Occupy { slot: u64, identity: u64 },
    // The count of a level.
    Level { level: u64, count: u64 },
    // The table's count.
    Count(u64),
}

// The tables that a run can be on. A question begins with another letter for each.
#[derive(Clone, Copy)]
pub enum Kind {
    Elastic,
    Funnel,
}

// All operations of a run on a table of n slots: those in fields, or, in bulk, many insertions, of which some are done.
#[derive(Clone, Copy)]
pub enum Operations<'a> {
    Listed {
        fields: Fields<'a>,
        kind: Kind,
        n: u64,
    },
    Bulk {
        start: u64,
        many: u64,
        done: u64,
    },
}

impl<'a> Operations<'a> {
    pub(crate) fn is_bulk(self) -> bool {
        matches!(self, Operations::Bulk { .. })
    }
}

impl<'a> Iterator for Operations<'a> {
    type Item = Operation;

    ghost remaining = { λ s. at_most (operations_left s) };

    fn next(&mut self) -> Option<Operation> {
        match *self {
            Operations::Listed { fields, kind, n } => {
                let mut left = fields;
                let field = left.next();
                *self = Operations::Listed {
                    fields: left,
                    kind,
                    n,
                };
                parse(field?, kind, n)
            }
            Operations::Bulk { start, many, done } => {
                if many <= done {
                    return None;
                }
                *self = Operations::Bulk {
                    start,
                    many,
                    done: done + 1,
                };
                Some(Operation::Insert {
                    identity: bulk_identity(start, done + 1),
                })
            }
        }
    }
}

// The operation in a field, if it is one on a table of n slots.
pub fn parse(field: &[u8], kind: Kind, n: u64) -> Option<Operation> {
    let (letter, rest) = field.split_first()?;
    match (letter, kind) {
        (b'i', _) => Some(Operation::Insert {
            identity: number(rest)?,
        }),
        (b'q', Kind::Elastic) | (b's', Kind::Funnel) => Some(Operation::Ask {
            identity: number(rest)?,
        }),
        _ => Some(Operation::Edit(edit_of(*letter, rest, kind, n)?)),
    }
}

fn edit_of(letter: u8, rest: &[u8], kind: Kind, n: u64) -> Option<Edit> {
    match (letter, kind) {
        (b'o', _) => {
            let (slot, identity) = split_pair(rest)?;
            if slot < n {
                Some(Edit::Occupy { slot, identity })
            } else {
                None
            }
        }
        (b'c', Kind::Elastic) => {
            let (level, count) = split_pair(rest)?;
            if level < 32 {
                Some(Edit::Level { level, count })
            } else {
                None
            }
        }
        (b'l', _) => Some(Edit::Count(number(rest)?)),
        _ => None,
    }
}

// A field around the first byte of a kind, or none.
pub fn split_at_byte(field: &[u8], b: u8) -> Option<(&[u8], &[u8])>
    ensures { IfSome result (λ parts. field.now ≡ parts.0.now ++ b ∷ parts.1.now) }
{
    let at = field.iter().position(|x| *x == b)?;
    Some((&field[..at], &field[at + 1..]))
}

// LEFT=RIGHT
pub fn split_pair(field: &[u8]) -> Option<(u64, u64)> {
    let (left, right) = split_at_byte(field, b'=')?;
    Some((number(left)?, number(right)?))
}

// The k-th identity of a bulk run.
fn bulk_identity(start: u64, k: u64) -> u64 {
    mix64(start.wrapping_add(multiply(k, GOLDEN)))
}
