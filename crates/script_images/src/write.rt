// WRITE n e seed cap LABELHEX ROOM ENTRIES: the image of a table that holds the entries, into ROOM bytes.
use image_calls::calls::write_image;
use image_writer::writer::WriteRefusal;
use refusal::Name;
use script::print::Refusal;
use script_funnel::runs::Held;
use script_tasks::bytes::{put_bytes, spell};
use text::buffers::image_buffer;
use text::out::Out;

// The call, and its answer.
pub(crate) fn run(label: &[u8], room: u64, table: &Held, out: &mut Out) {
    let mut image = image_buffer();
    match written(label, room as usize, table, &mut image) {
        Ok(len) => {
            write!(out, "OK {len} ");
            put_image(&image, len as usize, out);
        }
        Err(refused) => write!(out, "{refused}"),
    }
}

// The call with the first bytes of a large buffer for the image. A label of more than 64 bytes is refused, so one byte more
// tells any of them.
fn written(field: &[u8], room: usize, table: &Held, image: &mut [u8]) -> Result<u64, Refusal> {
    let mut label = [0; 65];
    let k = spell(field, &mut label);
    if image.len() < room {
        return Err(Refusal::Named(Name::Room));
    }
    write_image(
        table.table,
        table.counts,
        table.words,
        table.flags,
        &label[..k],
        &mut image[..room],
    )
    .map_err(refusal_of)
}

fn refusal_of(refused: WriteRefusal) -> Refusal {
    match refused {
        WriteRefusal::Gate(gate) => Refusal::from(gate),
        WriteRefusal::Dirty { slot } => Refusal::Valued(Name::Dirty, slot.0),
        WriteRefusal::Room { .. } => Refusal::Named(Name::Room),
    }
}

fn put_image(image: &[u8], len: usize, out: &mut Out) {
    if len <= image.len() {
        put_bytes(&image[..len], out);
    }
}
