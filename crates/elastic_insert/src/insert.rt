// The insertion: what is tested before, and what is written.
// Words and flags stay parameters: they are lent to be written.
ghost use Rattle.std.specs.Prelude.{◌≡◌, ◌+◌, ◌-◌, ◌/◌, ◌^◌, ◌<◌, ◌≤◌, length, set, Ok};
ghost use Rattle.elastic_probe.specs.Phi.{phi};
ghost use Rattle.elastic.specs.State.{Valid};
ghost use Rattle.elastic_steps.specs.Insert.{done, counted, added_to, Storable, taken_at, insert_of, place_by, choose_of};

use elastic::route::find_identity;
use elastic::state::{State, state_gate};
use elastic_probe::phi::phi_bounded;
use elastic_steps::answer::{Choice, InsertRefusal, Inserted, Insertion, Location};
use elastic_steps::steps::steps;
use geometry::elastic::{active_batch, level_offset};
use lent::store::Stored;
use probe::word::elastic_key;
use words::place::{GlobalSlot, LevelSlot, LogicalProbe, PaperProbe};

// An identity into the table: the first vacant slot that the steps meet, unless something refuses.
pub fn insert<E: Stored>(
    st: State,
    counts: &mut [u64; 32],
    words: &mut [E],
    flags: &mut [u8],
    identity: u64,
) -> Inserted
    ensures { done result.answer result.st counts.new (E.words words.new) flags.new ≡ insert_of st counts.old (E.words words.old) flags.old identity }
{
    match state_gate(st, counts, E::count(words) as usize, flags.len()) {
        Ok(_) => place(st, counts, words, flags, identity),
        Err(gate) => Inserted {
            answer: Err(InsertRefusal::from(gate)),
            st,
        },
    }
}

// The insertion into a table whose tests passed.
pub fn place<E: Stored>(
    st: State,
    counts: &mut [u64; 32],
    words: &mut [E],
    flags: &mut [u8],
    identity: u64,
) -> Inserted
    requires { Valid st counts.old (length (E.words words.old)) (length flags.old) }
    ensures { done result.answer result.st counts.new (E.words words.new) flags.new ≡ place_by st counts.old (E.words words.old) flags.old identity (choose_of st counts.old (E.words words.old) flags.old identity) }
{
    match choose(st, counts, words, flags, identity) {
        Ok(choice) => {
            let position = position_of(choice.level, choice.probe);
            if st.limits.hit_query_position_cap < position {
                return Inserted {
                    answer: Err(InsertRefusal::Position),
                    st,
                };
            }
            store(counts, words, flags, choice.level, choice.slot, identity);
            taken(st, choice, position)
        }
        Err(refusal) => Inserted {
            answer: Err(refusal),
            st,
        },
    }
}

// The identity into a slot, and one member more in its level.
fn store<E: Stored>(
    counts: &mut [u64; 32],
    words: &mut [E],
    flags: &mut [u8],
    level: u64,
    slot: u64,
    identity: u64,
)
    requires { Storable counts.old level × (slot < length (E.words words.old)) × (slot < length flags.old) }
    ensures { (counts.new ≡ added_to counts.old level) × (E.words words.new ≡ set (E.words words.old) slot identity) × (flags.new ≡ set flags.old slot 1) }
{
    counts[level as usize] += 1;
    E::put(words, slot, identity);
    flags[slot as usize] = 1;
}

// The answer of a slot that was taken, and the state with one member more.
fn taken(st: State, choice: Choice, position: u64) -> Inserted
    requires { (st.n - st.n / 2 ^ choice.level ≤ choice.slot) × (choice.probe.0 < 8192) × (st.count ≤ 4294967296) }
    ensures { (result.answer ≡ Ok (taken_at choice.case choice.level choice.slot (st.n - st.n / 2 ^ choice.level) choice.probe position)) × (result.st ≡ counted st) }
{
    let offset = level_offset(st.n, choice.level);
    let mut next = st;
    next.count += 1;
    Inserted {
        answer: Ok(insertion_of(choice, offset, position)),
        st: next,
    }
}

// What is answered of a slot that was taken, in a level that starts at `offset`.
fn insertion_of(choice: Choice, offset: u64, position: u64) -> Insertion
    requires { (offset ≤ choice.slot) × (choice.probe.0 < 8192) }
    ensures { result ≡ taken_at choice.case choice.level choice.slot offset choice.probe position }
{
    Insertion {
        case: choice.case,
        location: Location {
            level: choice.level,
            slot_in_level: LevelSlot(choice.slot - offset),
            global_slot: GlobalSlot(choice.slot),
        },
        paper_probe: PaperProbe(choice.probe.0 + 1),
        phi: position,
    }
}

// The position of a probe of a level, which fits a word in every table.
fn position_of(level: u64, probe: LogicalProbe) -> u64
    requires { (level < 32) × (probe.0 < 8192) }
    ensures { result ≡ phi (level + 1) (probe.0 + 1) }
{
    phi_bounded((level + 1) as u32, probe.0 + 1).unwrap()
}

// The slot for an identity.
fn choose<E: Stored>(
    st: State,
    counts: &[u64; 32],
    words: &[E],
    flags: &[u8],
    identity: u64,
) -> Result<Choice, InsertRefusal>
    requires { Valid st counts.now (length (E.words words.now)) (length flags.now) }
    ensures { result ≡ choose_of st counts.now (E.words words.now) flags.now identity }
{
    if let Some(slot) = find_identity(words, flags, identity) {
        return Err(InsertRefusal::Duplicate(GlobalSlot(slot)));
    }
    if st.plan.maximum <= st.count {
        return Err(InsertRefusal::Exhausted);
    }
    let key = elastic_key(st.seed, identity);
    let batch = active_batch(st.n, st.e, st.plan, st.count);
    steps(st, key, counts, flags, batch)
}
