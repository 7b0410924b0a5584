// What a table holds, as WRITE and CHECK are told it: SLOT=ID, which is flagged 1, or SLOT=ID:FLAG.
use script::operation::{split_at_byte, split_pair};
use script::run::put_slot;
use text::field::{Fields, number};

#[derive(Clone, Copy)]
struct Entry {
    slot: u64,
    word: u64,
    flag: u8,
}

// Whether every field is an entry of a table of n slots.
pub fn are_entries(mut fields: Fields, n: u64) -> bool {
    fields.all(|field| entry_in(field).is_some_and(|entry| entry.slot < n))
}

// The entry in a field.
fn entry_in(field: &[u8]) -> Option<Entry> {
    let (pair, flag) = match split_at_byte(field, b':') {
        Some((pair, flag)) => (pair, u8::try_from(number(flag)?).ok()?),
        None => (field, 1),
    };
    let (slot, word) = split_pair(pair)?;
    Some(Entry { slot, word, flag })
}

// Puts all entries into a table, one after the other.
pub fn put_entries(fields: Fields, words: &mut [u64], flags: &mut [u8]) {
    for field in fields {
        if let Some(Entry { slot, word, flag }) = entry_in(field) {
            put_slot(slot, word, flag, words, flags);
        }
    }
}
