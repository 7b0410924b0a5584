// A table opened in buffers of its length, and the run on it.
use crate::answers::{Done, insert_refusal, query_refusal};
use crate::setting::{Asked, Setting, asked_by};
use elastic::state::{State, open};
use elastic_insert::insert::insert;
use elastic_query::query::query;
use script::digest::Digest;
use script::operation::{Edit, Operations};
use script::print::{Refusal, put_refusal};
use script::request::Form;
use script::run::{Sums, Table, carry_out, put_end, put_slot};
use text::buffers::{first_slots, word_buffer};
use text::field::Fields;
use text::out::Out;

// An open table.
#[derive(Drop)]
struct Held<'a> {
    st: State,
    counts: [u64; 32],
    words: &'a mut [u64],
    flags: &'a mut [u8],
}

impl<'a> Table for Held<'a> {
    type Done = Done;

    fn insert(&mut self, identity: u64) -> Result<Done, Refusal> {
        let done = insert(self.st, &mut self.counts, self.words, self.flags, identity);
        self.st.count = done.st.count;
        done.answer.map(Done::Inserted).map_err(insert_refusal)
    }

    fn ask(&self, identity: u64) -> Result<Done, Refusal> {
        query(self.st, &self.counts, self.words, self.flags, identity)
            .map(Done::Found)
            .map_err(query_refusal)
    }

    fn edit(&mut self, edit: Edit) {
        match edit {
            Edit::Occupy { slot, identity } => put_slot(slot, identity, 1, self.words, self.flags),
            Edit::Level { level, count } => {
                if level < 32 {
                    self.counts[level as usize] = count;
                }
            }
            Edit::Count(count) => self.st.count = count,
        }
    }

    // The sums are those of the inserted alone.
    fn probes(answer: Result<Done, Refusal>) -> u64 {
        match answer {
            Ok(Done::Inserted(insertion)) => insertion.paper_probe.0,
            _ => 0,
        }
    }

    fn position(answer: Result<Done, Refusal>) -> u64 {
        match answer {
            Ok(Done::Inserted(insertion)) => insertion.phi,
            _ => 0,
        }
    }
}

// ERUN n e seed c wordcap searchcap poscap OPS, EBULK n e seed c wordcap searchcap poscap start count
pub fn command(form: Form, fields: Fields, out: &mut Out) {
    put_refusal(carried_out(form, fields, out), out);
}

fn carried_out(form: Form, fields: Fields, out: &mut Out) -> Result<(), Refusal> {
    in_buffers(asked_by(form, fields)?, out)
}

// In the first n slots of large buffers. No `?` stands before these, which would have them zeroed twice.
fn in_buffers(asked: Asked, out: &mut Out) -> Result<(), Refusal> {
    let mut words = word_buffer();
    let mut flags = io::large_buffer();
    let slots = first_slots(asked.setting.n, &mut words, &mut flags);
    let (words, flags) = slots.ok_or(Refusal::Large)?;
    let mut counts = [0; 32];
    let Setting { n, e, seed, limits } = asked.setting;
    let st = open(n, e, seed, limits, &mut counts, words, flags)?;
    let table = Held {
        st,
        counts,
        words,
        flags,
    };
    run(asked.operations, table, out);
    Ok(())
}

fn run(operations: Operations, mut table: Held, out: &mut Out) {
    let sums = carry_out(operations, &mut table, out);
    put_sums(table.st.count, &sums, out);
    put_table(&table, out);
}

// What an end begins with, and in bulk the sum of the positions.
fn put_sums(count: u64, sums: &Sums, out: &mut Out) {
    put_end(count, sums, out);
    if sums.is_bulk {
        write!(out, " {}", sums.positions);
    }
}

// The counts of the levels, joined by commas, and the digest.
fn put_table(table: &Held, out: &mut Out) {
    out.byte(b' ');
    out.joined(table.st.plan.levels, &table.counts);
    let words = &*table.words;
    let flags = &*table.flags;
    write!(out, " {}", Digest { words, flags });
}
