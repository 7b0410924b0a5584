// A run: each operation carried out and answered, or in bulk counted, and the end of its answer.
ghost use Rattle.std.specs.Prelude.{length};
ghost use Rattle.script.specs.Run.{Puts};

use crate::operation::{Edit, Operation, Operations};
use crate::print::{Refusal, put_answer};
use std::fmt;
use std::fmt::Display;
use text::out::Out;

// A table that operations are carried out on.
pub trait Table {
    // What an insertion or a question is answered.
    type Done: Display + Copy;

    fn insert(&mut self, identity: u64) -> Result<Self::Done, Refusal>;

    fn ask(&self, identity: u64) -> Result<Self::Done, Refusal>;

    fn edit(&mut self, edit: Edit);

    // The probes that an insertion's answer counts, and its position.
    fn probes(answer: Result<Self::Done, Refusal>) -> u64;

    fn position(answer: Result<Self::Done, Refusal>) -> u64;
}

// The sums of probes and of positions over all insertions, how often each refusal came, and whether these are printed.
#[derive(Clone, Copy)]
pub struct Sums {
    pub is_bulk: bool,
    pub probes: u64,
    pub positions: u64,
    pub refusals: Refusals,
}

// How often each refusal came, by its number.
#[derive(Clone, Copy)]
pub struct Refusals([u64; 32]);

impl Refusals {
    fn count(&mut self, refused: Refusal) {
        if let Some(name) = refused.name() {
            let number = refusal::number(name) as usize;
            if number < 32 {
                self.0[number] = self.0[number].wrapping_add(1);
            }
        }
    }
}

// `number:times` joined by commas, or `-`.
impl Display for Refusals {
    fn fmt<W: fmt::Write>(&self, f: &mut fmt::Formatter<W>) -> fmt::Result {
        let mut is_first = true;
        for (number, times) in self.0.iter().enumerate() {
            if *times != 0 {
                if !is_first {
                    write!(f, ",")?;
                }
                write!(f, "{number}:{times}")?;
                is_first = false;
            }
        }
        if is_first { write!(f, "-") } else { Ok(()) }
    }
}

// All operations of a run. The answers are printed, or, in bulk, only their refusals are counted.
pub fn carry_out<T: Table>(operations: Operations, table: &mut T, out: &mut Out) -> Sums {
    let mut sums = Sums {
        is_bulk: operations.is_bulk(),
        probes: 0,
        positions: 0,
        refusals: Refusals([0; 32]),
    };
    for operation in operations {
        let answer = match operation {
            Operation::Insert { identity } => {
                let answer = table.insert(identity);
                sums.probes = sums.probes.wrapping_add(T::probes(answer));
                sums.positions = sums.positions.wrapping_add(T::position(answer));
                answer
            }
            Operation::Ask { identity } => table.ask(identity),
            Operation::Edit(edit) => {
                table.edit(edit);
                continue;
            }
        };
        if !sums.is_bulk {
            put_answer(answer, out);
            write!(out, "; ");
        } else if let Err(refused) = answer {
            sums.refusals.count(refused);
        }
    }
    sums
}

// What an end begins with: `END` and the count, or in bulk the count, the refusals and the sum of the probes.
pub fn put_end(count: u64, sums: &Sums, out: &mut Out) {
    if sums.is_bulk {
        write!(out, "{count} {} {}", sums.refusals, sums.probes);
    } else {
        write!(out, "END {count}");
    }
}

// Puts a word and its flag into a slot, if there is one.
pub fn put_slot(slot: u64, word: u64, flag: u8, words: &mut [u64], flags: &mut [u8])
    ensures word { Puts slot word words.old (length flags.old) words.new }
    ensures flag { Puts slot flag flags.old (length words.old) flags.new }
{
    let slot = slot as usize;
    if slot < words.len() && slot < flags.len() {
        words[slot] = word;
        flags[slot] = flag;
    }
}
