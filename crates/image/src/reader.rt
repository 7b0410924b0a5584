// The reader: what an image says, or where it is malformed. One function for a field, one loop over fields.
ghost use Rattle.std.specs.Prelude.{true, ◌≡◌, ◌+◌, ◌*◌, ◌/◌, ◌<◌, ◌≤◌, ◌^◌, length};
ghost use Rattle.image.specs.Format.{entry_size, fields};
ghost use Rattle.image.specs.Head.{unnamed};
ghost use Rattle.image.specs.Reading.{right_length, entries_at, told_head, read_of};
ghost use Rattle.image.specs.Cursor.{cursor, outline_in, rise_of, content_of, took_of, outcome_of};

use crate::field::{ENTRY_SIZE, Field, frame, low_after};
use crate::head::Head;
use words::bytes::{read32, read64};

// What a reader carries from field to field: the lowest rank that may come, the offset, what the fields said, how many
// entries there were, and the least slot that may follow.
#[derive(Clone, Copy, Debug, PartialEq, Eq)]
pub struct Cursor {
    pub low: u8,
    pub at: usize,
    pub head: Head,
    pub label_at: usize,
    pub label_len: usize,
    pub count: usize,
    pub floor: u64,
}

// What an image says, but for its entries. The label's place is two zeros where there is none, and no Option: so the loader answers it to C, and so
// `load_image_after_write_image` says it.
#[derive(Clone, Copy, Debug, PartialEq, Eq)]
pub struct Outline {
    pub head: Head,
    pub label_at: usize,
    pub label_len: usize,
    pub count: usize,
}

// The body of a field whose length is right: where it stands in the image, under which tag, and its length.
#[derive(Drop)]
struct Body<'a> {
    image: &'a [u8],
    tag: u8,
    at: usize,
    len: usize,
    ghost within: { at + len ≤ length image.now },
    ghost right: { right_length fields tag len ≡ true },
}

// What an image says, or the place where it is malformed. The loop is over fields, of which each shows where the next begins.
pub fn read(image: &[u8]) -> Result<Outline, usize>
    ensures { result ≡ outcome_of (read_of image.now) }
{
    let mut c = first_cursor();
    loop {
        let at = c.at;
        let Field { tag, len } = frame(image, c.low, at)?;
        let body = Body {
            image,
            tag,
            at: at + 3,
            len,
        };
        let Some(floor) = content_in(&body, c) else {
            return Err(at);
        };
        if tag == 6 {
            let next = body.at + len;
            if next < image.len() {
                return Err(next);
            }
            return Ok(outline_of(c));
        }
        c = took(&body, c, floor);
    }
}

// Before the first field.
fn first_cursor() -> Cursor
    ensures { result ≡ cursor 0 0 unnamed 0 0 0 0 }
{
    Cursor {
        low: 0,
        at: 0,
        head: Head {
            n: 0,
            e: 0,
            seed: 0,
        },
        label_at: 0,
        label_len: 0,
        count: 0,
        floor: 0,
    }
}

// What was seen, past the last field.
fn outline_of(c: Cursor) -> Outline
    ensures { result ≡ outline_in c }
{
    Outline {
        head: c.head,
        label_at: c.label_at,
        label_len: c.label_len,
        count: c.count,
    }
}

// The least slot that may follow a body, if its content is right: only slots and the count can be wrong.
fn content_in(body: &Body, c: Cursor) -> Option<u64>
    ensures { result ≡ content_of body.now.image.now c body.now.tag body.now.at body.now.len }
{
    if body.tag == 5 {
        return rise(
            body.image,
            c.head.n,
            c.floor,
            body.at,
            body.len / ENTRY_SIZE,
        );
    }
    if body.tag == 6 && read64(body.image, body.at) != c.count as u64 {
        return None;
    }
    Some(c.floor)
}

// The least slot that may follow `count` entries at `at`, if their slots rise, start no lower than `floor` and stay below n.
fn rise(image: &[u8], n: u64, floor: u64, at: usize, count: usize) -> Option<u64>
    requires { at + entry_size * count ≤ length image.now }
    ensures { result ≡ rise_of n floor (entries_at image.now at count) }
{
    let mut low = floor;
    for i in 0..count {
        let slot = read64(image, at + ENTRY_SIZE * i);
        if slot < low {
            return None;
        }
        if n <= slot {
            return None;
        }
        low = slot + 1;
    }
    Some(low)
}

// The cursor past a field.
fn took(body: &Body, c: Cursor, floor: u64) -> Cursor
    requires { c.count + body.now.len / entry_size < 2 ^ 64 }
    ensures { result ≡ took_of body.now.image.now c body.now.tag body.now.at body.now.len floor }
{
    let mut t = c;
    t.head = named(body, c.head);
    t.low = low_after(body.tag, body.len);
    t.at = body.at + body.len;
    if body.tag == 4 {
        t.label_at = body.at;
        t.label_len = body.len;
        return t;
    }
    if body.tag == 5 {
        t.count += body.len / ENTRY_SIZE;
        t.floor = floor;
    }
    t
}

// What names the table, with a body.
fn named(body: &Body, head: Head) -> Head
    ensures { result ≡ told_head body.now.image.now head body.now.tag body.now.at }
{
    let mut h = head;
    if body.tag == 1 {
        h.n = read64(body.image, body.at);
        return h;
    }
    if body.tag == 2 {
        h.e = read32(body.image, body.at);
        return h;
    }
    if body.tag == 3 {
        h.seed = read64(body.image, body.at);
    }
    h
}
