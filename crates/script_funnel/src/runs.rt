// A run on a fresh table, and the end of its answer.
use crate::answers::{Done, insert_refusal, inserted, searched};
use funnel::table::FunnelTable;
use funnel_calls::calls::{insert, search};
use refusal::Name;
use script::digest::Digest;
use script::operation::{Edit, Operations};
use script::print::Refusal;
use script::run::{Table, carry_out, put_end, put_slot};
use text::out::Out;

// An open table.
#[derive(Drop)]
pub struct Held<'a> {
    pub table: FunnelTable,
    pub counts: &'a [u64; 118],
    pub words: &'a mut [u64],
    pub flags: &'a mut [u8],
}

impl<'a> Table for Held<'a> {
    type Done = Done;

    fn insert(&mut self, identity: u64) -> Result<Done, Refusal> {
        let step = insert(self.table, self.counts, self.words, self.flags, identity)?;
        self.table.count = step.table.count;
        step.answer.map(inserted).map_err(insert_refusal)
    }

    fn ask(&self, identity: u64) -> Result<Done, Refusal> {
        searched(search(self.table, self.counts, self.words, self.flags, identity)?)
    }

    // No level of a funnel table has a count.
    fn edit(&mut self, edit: Edit) {
        match edit {
            Edit::Occupy { slot, identity } => put_slot(slot, identity, 1, self.words, self.flags),
            Edit::Level { .. } => {}
            Edit::Count(count) => self.table.count = count,
        }
    }

    // The probes of an insertion, refused or not. A reduction's words are none.
    fn probes(answer: Result<Done, Refusal>) -> u64 {
        match answer {
            Ok(Done::Inserted { probes, .. }) => probes,
            Err(Refusal::Duplicate { probes, .. }) => probes,
            Err(Refusal::Valued(Name::Exhausted | Name::Full, probes)) => probes,
            _ => 0,
        }
    }

    fn position(_answer: Result<Done, Refusal>) -> u64 {
        0
    }
}

impl<'a> Held<'a> {
    // A space and the digest.
    pub fn put_digest(&self, out: &mut Out) {
        let words = &*self.words;
        let flags = &*self.flags;
        write!(out, " {}", Digest { words, flags });
    }
}

pub fn run(operations: Operations, table: &mut Held, out: &mut Out) {
    let sums = carry_out(operations, table, out);
    put_end(table.table.count, &sums, out);
    table.put_digest(out);
}
