// The loader: the whole image is read first, and only a right image of this very table is filled in.
// Words and flags stay parameters: they are lent to be filled.
ghost use Rattle.std.specs.Prelude.{true, ◌≡◌, ◌+◌, ◌*◌, ◌≤◌, length};
ghost use Rattle.image.specs.Format.{entry_size};
ghost use Rattle.image.specs.Reading.{entries_at, read_of};
ghost use Rattle.image_calls.specs.Fill.{is_good, slots_in, entries_in, Fills, Fits};
ghost use Rattle.image_calls.specs.Loading.{loads, load_of};
ghost use Rattle.image_writer.specs.Writing.{head_of};

use funnel::table::FunnelTable;
use image::field::{ENTRY_SIZE, Field, frame, low_after};
use image::reader::read;
use image_writer::writer::head_of;
use lent::store::Stored;
use words::bytes::read64;
use words::clear::clear_bytes;

// What an image says of a table that is loaded from it: the number of entries, and the label's place, two zeros if there is none.
#[derive(Clone, Copy, Debug, PartialEq, Eq)]
pub struct Filled {
    pub count: u64,
    pub label_at: u64,
    pub label_len: u64,
}

// Why valid buffers are not loaded: IMAGE with its place, or FOREIGN.
#[derive(Clone, Copy, Debug, PartialEq, Eq)]
pub enum LoadRefusal {
    Image { place: u64 },
    Foreign,
}

// The buffers of a table, which have its length, from an image of it.
pub fn load<E: Stored>(
    table: FunnelTable,
    words: &mut [E],
    flags: &mut [u8],
    image: &[u8],
) -> Result<Filled, LoadRefusal>
    requires { (length (E.words words.old) ≡ table.n) × (length flags.old ≡ table.n) }
    ensures { loads result (E.words words.new) flags.new ≡ load_of (head_of table) (E.words words.old) flags.old image.now }
{
    match read(image) {
        Err(place) => Err(LoadRefusal::Image {
            place: place as u64,
        }),
        Ok(outline) => {
            if outline.head != head_of(table) {
                return Err(LoadRefusal::Foreign);
            }
            E::clear(words);
            clear_bytes(flags);
            fill_image(image, words, flags);
            Ok(Filled {
                count: outline.count as u64,
                label_at: outline.label_at as u64,
                label_len: outline.label_len as u64,
            })
        }
    }
}

// Both buffers hold the entries of a right image besides what they held; the loop is over its fields, of which each shows where the next begins.
// A right image has no wrong field, so nothing is tested again.
fn fill_image<E: Stored>(image: &[u8], words: &mut [E], flags: &mut [u8])
    requires { (is_good (read_of image.now) ≡ true) × (slots_in (read_of image.now) ≤ length (E.words words.old)) × (slots_in (read_of image.now) ≤ length flags.old) }
    ensures { Fills (E.words words.old) flags.old (entries_in (read_of image.now)) (E.words words.new) flags.new }
{
    let mut low: u8 = 0;
    let mut at: usize = 0;
    while let Ok(Field { tag, len }) = frame(image, low, at) {
        if tag == 6 {
            return;
        }
        let body = at + 3;
        low = low_after(tag, len);
        at = body + len;
        if tag == 5 {
            fill_field(image, body, len / ENTRY_SIZE, words, flags);
        }
    }
}

// The entries of a field whose slots are known to be right.
fn fill_field<E: Stored>(image: &[u8], at: usize, count: usize, words: &mut [E], flags: &mut [u8])
    requires { (at + entry_size * count ≤ length image.now) × Fits (entries_at image.now at count) (length (E.words words.old)) (length flags.old) }
    ensures { Fills (E.words words.old) flags.old (entries_at image.now at count) (E.words words.new) flags.new }
{
    for i in 0..count {
        let p = at + ENTRY_SIZE * i;
        let slot = read64(image, p);
        let identity = read64(image, p + 8);
        E::put(words, slot, identity);
        flags[slot as usize] = 1;
    }
}
