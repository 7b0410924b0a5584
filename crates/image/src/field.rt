// The format of an image as a table of its kinds of field, and one field, in 01's order of testing.
ghost use Rattle.std.specs.Prelude.{◌≡◌, ◌≤◌, length};
ghost use Rattle.image.specs.Format.{fields, numbered};
ghost use Rattle.image.specs.Reading.{rank_of, kind_at, right_tag, right_length, low_after, frame_of};

use words::bytes::read16;

// An entry is a slot and an identity, 16 bytes.
pub const ENTRY_SIZE: usize = 16;
// A field holds at most 4,095 entries, so that its length fits two bytes.
pub const FIELD_ENTRIES: usize = 4095;
// The body of a full field of entries.
pub const FIELD_BYTES: usize = 65520;
// A label has at most 64 bytes.
pub const LABEL_MOST: usize = 64;

// How many kinds of field there are.
const KINDS: u8 = 6;

// A kind of field: its tag, whether it must stand, the least and the most bytes of its body, what these are a multiple of, and
// whether another may stand behind a full one.
#[derive(Clone, Copy, Debug, PartialEq, Eq)]
pub struct Kind {
    pub tag: u8,
    pub must: bool,
    pub least: usize,
    pub most: usize,
    pub unit: usize,
    pub again: bool,
}

// A field whose tag, length and body are right. A tag stays the number that it is in the image: the format is a table of such numbers (`fields`),
// of which `read_after_write` and `write_after_read` speak.
#[derive(Clone, Copy, Debug, PartialEq, Eq)]
pub struct Field {
    pub tag: u8,
    pub len: usize,
}

// The field at `at`, or the place that is wrong, where `low` is the lowest rank that may come next.
pub fn frame(image: &[u8], low: u8, at: usize) -> Result<Field, usize>
    requires { at ≤ length image.now }
    ensures { result ≡ frame_of fields image.now low at }
{
    let size = image.len();
    if size <= at {
        return Err(size);
    }
    let tag = image[at];
    if !right_tag(low, tag) {
        return Err(at);
    }
    if size - at < 3 {
        return Err(size);
    }
    let len = read16(image, at + 1) as usize;
    if !right_length(tag, len) {
        return Err(at);
    }
    if size - at - 3 < len {
        return Err(size);
    }
    Ok(Field { tag, len })
}

// The format: its kinds of field in their order, each with its tag and length. Past the last a kind that no field has.
#[tactic(auto, using(crate::specs::KindLaws::kind_past), unfolding(crate::specs::Reading::kind_at, crate::specs::Format::fields))]
fn kind_at(rank: u8) -> Kind
    ensures { result ≡ kind_at fields rank }
{
    match rank {
        0 => number(1, 8),
        1 => number(2, 4),
        2 => number(3, 8),
        3 => Kind {
            tag: 4,
            must: false,
            least: 1,
            most: LABEL_MOST,
            unit: 1,
            again: false,
        },
        4 => Kind {
            tag: 5,
            must: false,
            least: ENTRY_SIZE,
            most: FIELD_BYTES,
            unit: ENTRY_SIZE,
            again: true,
        },
        5 => number(6, 8),
        _ => number(0, 0),
    }
}

// A number of so many bytes, which must stand.
fn number(tag: u8, size: usize) -> Kind
    ensures { result ≡ numbered tag size }
{
    Kind {
        tag,
        must: true,
        least: size,
        most: size,
        unit: 1,
        again: false,
    }
}

// The place of a tag's kind in the format, the number of kinds for a byte that is no tag: `kind_at` and the theorems over `fields` go on from that place.
#[tactic(auto, using(crate::specs::KindLaws::rank_none), unfolding(crate::specs::Reading::rank_of, crate::specs::Format::fields))]
fn rank(tag: u8) -> u8
    ensures { result ≡ rank_of fields tag }
{
    match tag {
        1 => 0,
        2 => 1,
        3 => 2,
        4 => 3,
        5 => 4,
        6 => 5,
        _ => KINDS,
    }
}

// Whether a tag may come where `low` is the lowest rank that may: up to the first kind that must stand, each may.
fn right_tag(low: u8, tag: u8) -> bool
    ensures { result ≡ right_tag fields low tag }
{
    for i in low..KINDS {
        let k = kind_at(i);
        if k.tag == tag {
            return true;
        }
        if k.must {
            return false;
        }
    }
    false
}

// Whether a body of `len` bytes may stand under a tag.
fn right_length(tag: u8, len: usize) -> bool
    ensures { result ≡ right_length fields tag len }
{
    let k = kind_at(rank(tag));
    len % k.unit == 0 && k.least <= len && len <= k.most
}

// The lowest rank that may come after a field: after a full field of entries another may come.
pub fn low_after(tag: u8, len: usize) -> u8
    ensures { result ≡ low_after fields tag len }
{
    let place = rank(tag);
    let k = kind_at(place);
    if k.again && len == k.most {
        place
    } else {
        place + 1
    }
}
