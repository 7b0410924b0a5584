// Images of funnel tables and their check.
use crate::funnels::table_of;
use audit_calls::check::{CheckRefusal, check};
use image_calls::calls::{load_image, write_image};

// What the check says: 0 accepted, 1 disorder, 2 another refusal; and the number placed, and the slot of a disorder.
#[unsafe(no_mangle)]
pub extern "C" fn bench_check(
    state: &[u64; 16],
    counts: &[u64; 118],
    words: &[u64],
    flags: &[u8],
    marks: &mut [u8],
    order: &mut [u64],
    told: &mut [u64; 2],
) -> u64 {
    match check(table_of(state), counts, words, flags, marks, order) {
        Ok(placed) => {
            told[0] = placed;
            0
        }
        Err(CheckRefusal::Disorder { placed, slot }) => {
            told[0] = placed;
            told[1] = slot;
            1
        }
        Err(_) => 2,
    }
}

// The length of the image, 0 where it was not written.
#[unsafe(no_mangle)]
pub extern "C" fn bench_write_image(
    state: &[u64; 16],
    counts: &[u64; 118],
    words: &[u64],
    flags: &[u8],
    label: &[u8],
    out: &mut [u8],
) -> u64 {
    match write_image(table_of(state), counts, words, flags, label, out) {
        Ok(len) => len,
        Err(_) => 0,
    }
}

#[unsafe(no_mangle)]
pub extern "C" fn bench_load_image(
    state: &[u64; 16],
    counts: &[u64; 118],
    words: &mut [u64],
    flags: &mut [u8],
    image: &[u8],
) -> bool {
    load_image(table_of(state), counts, words, flags, image).is_ok()
}
