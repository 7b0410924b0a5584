// The slot of a probe, the search of a level for a vacancy, and the scan of all slots for an identity.
// Words and flags are two slices here: what looks at slots asks for their lengths alone, which is less than a valid table.
ghost use Rattle.std.specs.Prelude.{◌≡◌, Bool, true, false, ℕ, ◌+◌, ◌-◌, ◌*◌, ◌<◌, ◌≤◌, length, get_or};
ghost use Rattle.elastic.specs.Reading.{reading_of, seek_of, holds_at, first_of, Without, Probed, Seekable};

use geometry::elastic::{level_length, level_offset};
use lent::store::Stored;
use probe::range::elastic_draw;
use refusal::RangeRefusal;
use words::place::LogicalProbe;

// What a probe reads: a slot of the table, and how many words its draw took.
#[derive(Clone, Copy)]
pub struct Reading {
    pub slot: u64,
    pub words: u64,
}

// A vacant slot, and the probe that read it.
#[derive(Clone, Copy)]
pub struct Vacant {
    pub slot: u64,
    pub probe: LogicalProbe,
}

// The probes of an identity in a table: its key, the size and the last level of the table, and how many words a draw may take.
#[derive(Clone, Copy)]
pub struct Probing {
    pub key: u64,
    pub n: u64,
    pub last: u64,
    pub cap: u64,
}

impl Probing {
    // What a probe of a level reads: the Rust's `route`.
    pub fn route(self, level: u64, probe: LogicalProbe) -> Result<Reading, RangeRefusal>
        requires { Probed self.n self.last self.cap level × (probe.0 < 8192) }
        ensures { result ≡ reading_of self.n self.key self.cap level probe.0 }
    {
        let offset = level_offset(self.n, level);
        let length = level_length(self.n, self.last, level);
        let drew = elastic_draw(self.key, level, probe, length, self.cap)?;
        Ok(Reading {
            slot: offset + drew.index,
            words: drew.words,
        })
    }

    // The first vacant slot among so many probes of a level. None is made where there are no tries.
    pub fn seek(self, flags: &[u8], level: u64, tries: u64) -> Result<Option<Vacant>, RangeRefusal>
        requires { Seekable self.n self.last self.cap level tries (length flags.now) }
        ensures { result ≡ seek_of self.n self.key self.cap flags.now level tries }
    {
        for probe in 0..tries {
            let reading = self.route(level, LogicalProbe(probe))?;
            if flags[reading.slot as usize] == 0 {
                return Ok(Some(Vacant {
                    slot: reading.slot,
                    probe: LogicalProbe(probe),
                }));
            }
        }
        Ok(None)
    }
}

// Whether a slot is occupied by an identity.
pub fn holds<E: Stored>(words: &[E], flags: &[u8], id: u64, slot: u64) -> bool
    requires { (slot < length (E.words words.now)) × (slot < length flags.now) }
    ensures { result ≡ holds_at (E.words words.now) flags.now id slot }
{
    if flags[slot as usize] == 0 {
        return false;
    }
    E::word(words, slot) == id
}

// The smallest slot that holds an identity. An identity that is not there is mostly not among the words either, and these are
// compared without a branch, so that the compiler does several at once.
pub fn find_identity<E: Stored>(words: &[E], flags: &[u8], id: u64) -> Option<u64>
    requires { length flags.now ≡ length (E.words words.now) }
    ensures { result ≡ first_of (E.words words.now) flags.now id }
{
    if hits(words, id) == 0 {
        return None;
    }
    first_holding(words, flags, id)
}

// How many words are the identity.
fn hits<E: Stored>(words: &[E], id: u64) -> u64
    ensures { result ≡ 0 → Without (E.words words.now) id (length (E.words words.now)) }
{
    let n = E::count(words);
    let mut found = 0;
    for i in 0..n {
        found += u64::from(E::word(words, i) == id);
    }
    found
}

// The scan slot by slot.
fn first_holding<E: Stored>(words: &[E], flags: &[u8], id: u64) -> Option<u64>
    requires { length flags.now ≡ length (E.words words.now) }
    ensures { result ≡ first_of (E.words words.now) flags.now id }
{
    let n = flags.len() as u64;
    for i in 0..n {
        if holds(words, flags, id, i) {
            return Some(i);
        }
    }
    None
}
