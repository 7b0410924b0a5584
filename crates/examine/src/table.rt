// From the bytes of an image to a loaded table, or to what keeps it from being one.
use crate::verdict::{Held, judge};
use examine_words::header::{Given, read_header};
use examine_words::say::put_gate;
use examine_words::summary::{put_given, put_label, put_members};
use examine_words::telling::put_verdict;
use funnel_calls::calls::open;
use geometry_funnel::plan::funnel_gate;
use image_calls::calls::{LoadImageRefusal, Loaded, load_image};
use image_calls::loader::LoadRefusal;
use refusal::Name;
use text::buffers::{MOST_SLOTS, first_slots, word_buffer};
use text::out::Out;

// What an image is.
pub fn examine(image: &[u8], cap: u64, out: &mut Out) {
    match wrong_place(image) {
        Some(place) => put_malformed(image, place, out),
        None => examine_fields(image, cap, out),
    }
}

// Where an image is not well formed, if it is not.
//
// The loader tests the form of any image, whatever table it is to be loaded into, before it compares the two. So it is
// asked with the smallest funnel table, before n and e are known to have one. What else than its form the loader has against the
// image is asked again with its own table.
fn wrong_place(image: &[u8]) -> Option<u64> {
    let mut words = [0; 144];
    let mut flags = [0; 144];
    let smallest = Given {
        n: 144,
        e: 3,
        seed: 0,
        word_cap: 1,
    };
    match loaded(image, smallest, &mut [0; 118], &mut words, &mut flags) {
        Err(LoadImageRefusal::Load(LoadRefusal::Image { place })) => Some(place),
        _ => None,
    }
}

// The place, and what stands there.
fn put_malformed(image: &[u8], place: u64, out: &mut Out) {
    let number = refusal::number(Name::Image);
    write!(
        out,
        "refused     IMAGE ({number}): malformed at byte {place}"
    );
    match image.get(place as usize) {
        Some(b) => writeln!(out, ", where the byte is 0x{b:02x}"),
        None => writeln!(out, ", the end of the file"),
    }
}

// A file that is longer than any image that this program takes.
pub fn refuse_length(image: &[u8], out: &mut Out) {
    if let Some(given) = read_header(image, 1) {
        put_given(given, out);
        if MOST_SLOTS < given.n {
            put_larger(given.n, out);
            return;
        }
    }
    write!(
        out,
        "refused     the file is longer than any image of 65536 slots, "
    );
    writeln!(out, "the most that this program takes");
}

fn put_larger(n: u64, out: &mut Out) {
    write!(out, "refused     a table of {n} slots is larger ");
    writeln!(out, "than the 65536 that this program takes");
}

// A well-formed image starts with the three fields.
fn examine_fields(image: &[u8], cap: u64, out: &mut Out) {
    match read_header(image, cap) {
        Some(given) => {
            put_given(given, out);
            examine_size(image, given, out);
        }
        None => writeln!(out, "refused     the image has no n, e and seed"),
    }
}

fn examine_size(image: &[u8], given: Given, out: &mut Out) {
    match funnel_gate(given.n, given.e) {
        Err(gate) => put_gate(gate, out),
        Ok(()) if MOST_SLOTS < given.n => put_larger(given.n, out),
        Ok(()) => examine_table(image, given, out),
    }
}

// The table in the first n slots of large buffers.
fn examine_table(image: &[u8], given: Given, out: &mut Out) {
    let mut words = word_buffer();
    let mut flags = io::large_buffer();
    if let Some((words, flags)) = first_slots(given.n, &mut words, &mut flags) {
        load_table(image, given, words, flags, out);
    }
}

fn load_table(image: &[u8], given: Given, words: &mut [u64], flags: &mut [u8], out: &mut Out) {
    let mut counts = [0; 118];
    match loaded(image, given, &mut counts, words, flags) {
        Ok(loaded) => {
            put_label(image, loaded.label_at, loaded.label_len, out);
            let held = Held {
                table: loaded.table,
                counts: &counts,
                words,
                flags,
            };
            examine_loaded(held, out);
        }
        Err(refused) => put_refused(image, refused, out),
    }
}

fn put_refused(image: &[u8], refused: LoadImageRefusal, out: &mut Out) {
    match refused {
        LoadImageRefusal::Gate(gate) => put_gate(gate, out),
        LoadImageRefusal::Load(LoadRefusal::Image { place }) => put_malformed(image, place, out),
        LoadImageRefusal::Load(LoadRefusal::Foreign) => {
            let number = refusal::number(Name::Foreign);
            write!(
                out,
                "refused     FOREIGN ({number}): the image is another table's "
            );
            writeln!(out, "than its own n, e and seed say");
        }
    }
}

fn loaded(
    image: &[u8],
    given: Given,
    counts: &mut [u64; 118],
    words: &mut [u64],
    flags: &mut [u8],
) -> Result<Loaded, LoadImageRefusal> {
    let table = open(
        given.n,
        given.e,
        given.seed,
        given.word_cap,
        counts,
        words,
        flags,
    )?;
    load_image(table, counts, words, flags, image)
}

fn examine_loaded(held: Held, out: &mut Out) {
    let table = held.table;
    put_members(table, held.flags, out);
    put_verdict(judge(held), table.count, table.plan.maximum, out);
}
