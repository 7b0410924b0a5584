// LOAD n e seed cap HEX: an image into a table whose every word is slot + 1, every flag 1, and whose count is 0.
use crate::check::put_kept;
use image_calls::calls::{LoadImageRefusal, Loaded, load_image};
use image_calls::loader::LoadRefusal;
use refusal::Name;
use script::print::Refusal;
use script_funnel::runs::Held;
use script_tasks::bytes::spell;
use text::buffers::image_buffer;
use text::out::Out;

// The call on a fresh table, and its answer.
pub(crate) fn run(image: &[u8], table: &mut Held, out: &mut Out) {
    for (slot, word) in table.words.iter_mut().enumerate() {
        *word = before(slot);
    }
    table.flags.fill(1);
    match loaded(image, table) {
        Ok(loaded) => {
            write!(
                out,
                "OK {} {} {}",
                loaded.label_at, loaded.label_len, loaded.table.count
            );
            table.put_digest(out);
        }
        Err(refused) => {
            write!(out, "{}", refusal_of(refused));
            put_kept(is_kept(table), out);
        }
    }
}

// The word of a slot before the call.
fn before(slot: usize) -> u64 {
    (slot as u64).wrapping_add(1)
}

fn loaded(field: &[u8], table: &mut Held) -> Result<Loaded, LoadImageRefusal> {
    let mut image = image_buffer();
    let k = spell(field, &mut image);
    load_image(
        table.table,
        table.counts,
        table.words,
        table.flags,
        &image[..k],
    )
}

fn refusal_of(refused: LoadImageRefusal) -> Refusal {
    match refused {
        LoadImageRefusal::Gate(gate) => Refusal::from(gate),
        LoadImageRefusal::Load(LoadRefusal::Image { place }) => {
            Refusal::Valued(Name::Image, place)
        }
        LoadImageRefusal::Load(LoadRefusal::Foreign) => Refusal::Named(Name::Foreign),
    }
}

// Whether a refusal left words and flags as they were.
fn is_kept(table: &Held) -> bool {
    let are_before = table
        .words
        .iter()
        .enumerate()
        .all(|(slot, word)| *word == before(slot));
    are_before && table.flags.iter().all(|flag| *flag == 1)
}
