// The writer: the image of a table, into an output that a caller lends. Each function gets the whole output and an offset beside it, since each
// promises of the whole what stays as it was (`Put`).
ghost use Rattle.std.specs.Prelude.{◌∷◌, ◌≡◌, ◌+◌, ◌*◌, ◌≤◌, ◌^◌, length};
ghost use Rattle.std.proofs.lemmas.List.Edits.{sets};
ghost use Rattle.words.specs.Bytes.{bytes_of};
ghost use Rattle.image.specs.Format.{entry_size, label_most, entry_bytes, field_of, label_field, fields_for, image_of};
ghost use Rattle.image_writer.specs.Pieces.{entries_to, Put, PutEntries, PutFields, chunk, size_of};
ghost use Rattle.image_writer.specs.declared.writer.WriteRefusal.TheVariants as write_refusal;
ghost use Rattle.image_writer.specs.Writing.{writes, head_of, write_of};

use crate::dirty::{Slots, scan_table};
use funnel::table::FunnelTable;
use image::field::{ENTRY_SIZE, FIELD_ENTRIES};
use image::head::Head;
use lent::store::Stored;
use refusal::Gate;
use words::bytes::{write16, write64};
use words::place::GlobalSlot;

// Why the writer writes nothing: a refusal of the gate, DIRTY with the smallest dirty slot, or ROOM with the length that the image needs.
#[derive(Clone, Copy, Debug, PartialEq, Eq)]
pub enum WriteRefusal {
    Gate(Gate),
    Dirty { slot: GlobalSlot },
    Room { need: u64 },
}

impl From<Gate> for WriteRefusal {
    ghost from_gives = { λ g refused. refused ≡ write_refusal.Gate g };

    fn from(gate: Gate) -> WriteRefusal {
        WriteRefusal::Gate(gate)
    }
}

// The image of a table whose buffers have its length, and the image's length, or why there is none.
pub fn write<E: Stored>(
    table: FunnelTable,
    words: &[E],
    flags: &[u8],
    label: &[u8],
    out: &mut [u8],
) -> Result<u64, WriteRefusal>
    requires { (length (E.words words.now) ≡ length flags.now) × (length flags.now ≤ 2 ^ 32) × (length label.now ≤ label_most) }
    ensures { writes result out.new ≡ write_of (head_of table) label.now (E.words words.now) flags.now out.old }
{
    let slots = Slots { words, flags };
    let count = match scan_table(&slots) {
        Err(slot) => {
            return Err(WriteRefusal::Dirty {
                slot: GlobalSlot(slot as u64),
            });
        }
        Ok(count) => count,
    };
    let need = image_size(label.len(), count);
    if out.len() < need {
        return Err(WriteRefusal::Room { need: need as u64 });
    }
    let head = head_of(table);
    write_all(head, &slots, label, count, out);
    Ok(need as u64)
}

// The length of an image.
pub fn image_size(label_len: usize, count: usize) -> usize
    requires { (label_len ≤ label_most) × (count ≤ 2 ^ 32) }
    ensures { result ≡ size_of label_len count }
{
    let fields = (count + (FIELD_ENTRIES - 1)) / FIELD_ENTRIES;
    let rest = ENTRY_SIZE * count + 3 * fields;
    if label_len == 0 {
        return 40 + rest;
    }
    43 + label_len + rest
}

// The whole image, into room that is enough. Field 6 is the number of occupied flags, whatever count the state has.
fn write_all<E: Stored>(head: Head, slots: &Slots<E>, label: &[u8], count: usize, out: &mut [u8])
    requires { (count ≡ length (entries_to (E.words slots.now.words.now) slots.now.flags.now 0)) × (length label.now ≤ label_most) × (size_of (length label.now) count ≤ length out.old) }
    ensures { out.new ≡ sets out.old 0 (image_of head label.now (entries_to (E.words slots.now.words.now) slots.now.flags.now 0)) }
{
    let entries = count as u64;
    let behind_n = write_number::<8>(out, 0, 1, head.n);
    let behind_e = write_number::<4>(out, behind_n, 2, head.e);
    let behind_seed = write_number::<8>(out, behind_e, 3, head.seed);
    let behind_label = write_label(label, out, behind_seed);
    let behind_entries = write_fields(slots, count, out, behind_label);
    write_number::<8>(out, behind_entries, 6, entries);
}

// What names a table. Neither type is of this crate, so there is no From between them.
pub fn head_of(table: FunnelTable) -> Head
    ensures { result ≡ head_of table }
{
    Head {
        n: table.n,
        e: table.e as u64,
        seed: table.seed,
    }
}

// A field of a number of N bytes; the offset after it.
pub fn write_number<const N: usize>(out: &mut [u8], at: usize, tag: u8, x: u64) -> usize
    requires { (N ≤ 8) × (at + (3 + N) ≤ length out.old) }
    ensures { Put (field_of tag (bytes_of N x)) out.old at out.new result }
{
    write_head(out, at, tag, N as u64);
    out[at + 3..at + (3 + N)].copy_from_slice(&x.to_le_bytes()[..N]);
    at + (3 + N)
}

// A field's tag and length.
pub fn write_head(out: &mut [u8], at: usize, tag: u8, len: u64)
    requires { at + 3 ≤ length out.old }
    ensures { out.new ≡ sets out.old at (tag ∷ bytes_of 2 len) }
{
    out[at] = tag;
    write16(out, at + 1, len);
}

// The label's field, none if it is empty; the offset after it.
pub fn write_label(label: &[u8], out: &mut [u8], at: usize) -> usize
    requires { (at + 3 + length label.now ≤ length out.old) × (length label.now ≤ label_most) }
    ensures { Put (label_field label.now) out.old at out.new result }
{
    let n = label.len();
    if n == 0 {
        return at;
    }
    write_head(out, at, 4, n as u64);
    copy_in(label, out, at + 3);
    at + 3 + n
}

// A slice copied to `at`. Byte by byte, since the library's `copy_from_slice` of any length is a call of memmove, and the library for C asks its
// surroundings for memcpy and memset alone.
fn copy_in(part: &[u8], out: &mut [u8], at: usize)
    requires { at + length part.now ≤ length out.old }
    ensures { out.new ≡ sets out.old at part.now }
{
    for (i, b) in part.iter().enumerate() {
        out[at + i] = *b;
    }
}

// The fields of entries; the offset after them. The loop is over fields, of which each says from which slot the next goes on.
fn write_fields<E: Stored>(slots: &Slots<E>, count: usize, out: &mut [u8], at: usize) -> usize
    requires { (count ≡ length (entries_to (E.words slots.now.words.now) slots.now.flags.now 0)) × (at + entry_size * count + 3 * fields_for count ≤ length out.old) }
    ensures { PutFields (E.words slots.now.words.now) slots.now.flags.now count out.old at out.new result }
{
    let mut s = 0;
    let mut left = count;
    let mut p = at;
    while 0 < left {
        let m = chunk_of(left);
        write_head(out, p, 5, (ENTRY_SIZE * m) as u64);
        s = write_entries(slots, s, m, out, p + 3);
        p = p + 3 + ENTRY_SIZE * m;
        left -= m;
    }
    p
}

// As many of the entries left as a field takes.
pub fn chunk_of(left: usize) -> usize
    ensures { result ≡ chunk left }
{
    left.min(FIELD_ENTRIES)
}

// The next m entries from slot `from` on, at `at`; the slot to go on from. The loop ends at the m-th occupied slot, wherever that is.
fn write_entries<E: Stored>(
    slots: &Slots<E>,
    from: usize,
    m: usize,
    out: &mut [u8],
    at: usize,
) -> usize
    requires { (m ≤ length (entries_to (E.words slots.now.words.now) slots.now.flags.now from)) × (at + entry_size * m ≤ length out.old) × (from ≤ length slots.now.flags.now) }
    ensures { PutEntries (E.words slots.now.words.now) slots.now.flags.now from m out.old at out.new result }
{
    let mut s = from;
    let mut left = m;
    let mut p = at;
    while 0 < left {
        let slot = s;
        s += 1;
        if slots.flags[slot] != 0 {
            let identity = E::word(slots.words, slot as u64);
            write_entry(out, p, slot as u64, identity);
            p += ENTRY_SIZE;
            left -= 1;
        }
    }
    s
}

// One entry at `at`.
pub fn write_entry(out: &mut [u8], at: usize, slot: u64, identity: u64)
    requires { at + entry_size ≤ length out.old }
    ensures { out.new ≡ sets out.old at (entry_bytes slot identity) }
{
    write64(out, at, slot);
    write64(out, at + 8, identity);
}
