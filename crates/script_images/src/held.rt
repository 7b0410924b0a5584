// A table opened in buffers of its length, and the task done on it.
use crate::{check, load, write};
use funnel_calls::calls::open;
use script::print::{Refusal, put_refusal};
use script::request::Opening;
use script_funnel::runs::{Held, run};
use script_tasks::entries::put_entries;
use script_tasks::request::{Asked, Task, Verb, asked_by};
use text::buffers::{first_slots, word_buffer};
use text::field::Fields;
use text::out::Out;

// The answer to a command.
pub fn command(verb: Verb, fields: Fields, out: &mut Out) {
    put_refusal(carried_out(verb, fields, out), out);
}

fn carried_out(verb: Verb, fields: Fields, out: &mut Out) -> Result<(), Refusal> {
    in_buffers(asked_by(verb, fields)?, out)
}

// In the first n slots of large buffers. No `?` stands before these, which would have them zeroed twice. `script_elastic` has the same
// calls in a row, as it has `asked_by`, on its own types: a trait over both would name each call once more.
fn in_buffers(asked: Asked, out: &mut Out) -> Result<(), Refusal> {
    let mut words = word_buffer();
    let mut flags = io::large_buffer();
    let slots = first_slots(asked.opening.n, &mut words, &mut flags);
    let (words, flags) = slots.ok_or(Refusal::Large)?;
    let mut counts = [0; 118];
    let Opening { n, e, seed, cap } = asked.opening;
    let table = open(n, e, seed, cap, &mut counts, words, flags)?;
    let mut held = Held {
        table,
        counts: &counts,
        words,
        flags,
    };
    answer(asked.task, &mut held, out);
    Ok(())
}

// WRITE and CHECK are of a table that holds the entries.
fn answer(task: Task, held: &mut Held, out: &mut Out) {
    match task {
        Task::Run(operations) => run(operations, held, out),
        Task::Load { image } => load::run(image, held, out),
        Task::Write {
            label,
            room,
            entries,
        } => {
            put_entries(entries, held.words, held.flags);
            write::run(label, room, held, out);
        }
        Task::Check { count, entries } => {
            put_entries(entries, held.words, held.flags);
            held.table.count = count;
            check::run(held, out);
        }
    }
}
