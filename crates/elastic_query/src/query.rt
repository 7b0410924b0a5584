// The query of a table: where an identity is, after the tests of the table; `walk` reads the positions.
ghost use Rattle.std.specs.Prelude.{◌≡◌, length};
ghost use Rattle.elastic.specs.State.{Valid};
ghost use Rattle.elastic_query.specs.declared.query.QueryRefusal.TheVariants as refusal;
ghost use Rattle.elastic_query.specs.Query.{look_of, query_of};

use crate::walk::Walk;
use elastic::route::Probing;
use elastic::state::{State, state_gate};
use lent::store::Stored;
use probe::word::elastic_key;
use refusal::{Gate, RangeRefusal};
use words::place::GlobalSlot;

// Where an identity was found, and what the walk to it counted: the Rust's `ScalarElasticQuery`.
#[derive(Clone, Copy)]
pub struct Finding {
    pub position: u64,
    pub global_slot: GlobalSlot,
    pub mapped: u64,
    pub gap: u64,
    pub words: u64,
}

// Why a query finds nothing.
#[derive(Clone, Copy)]
pub enum QueryRefusal {
    Range(RangeRefusal),
    Absent,
    Gate(Gate),
}

impl From<RangeRefusal> for QueryRefusal {
    ghost from_gives = { λ range gives. gives ≡ refusal.Range range };

    fn from(refusal: RangeRefusal) -> QueryRefusal {
        QueryRefusal::Range(refusal)
    }
}

impl From<Gate> for QueryRefusal {
    ghost from_gives = { λ gate gives. gives ≡ refusal.Gate gate };

    fn from(gate: Gate) -> QueryRefusal {
        QueryRefusal::Gate(gate)
    }
}

// The numbers that every step of a query uses: the identity and its probes, and the last position that is tried.
#[derive(Clone, Copy)]
pub struct Lookup {
    pub id: u64,
    pub probing: Probing,
    pub cap: u64,
}

// A node of the tree of positions.
#[derive(Clone, Copy)]
pub struct Stretch {
    pub b: u64,
    pub j: u64,
    pub q: u64,
}

// What the walk has counted: mapped positions, and words.
#[derive(Clone, Copy)]
pub struct Cost {
    pub mapped: u64,
    pub words: u64,
}

// Where an identity is.
pub fn query<E: Stored>(
    st: State,
    counts: &[u64; 32],
    words: &[E],
    flags: &[u8],
    identity: u64,
) -> Result<Finding, QueryRefusal>
    ensures { result ≡ query_of st counts.now (E.words words.now) flags.now identity }
{
    state_gate(st, counts, E::count(words) as usize, flags.len())?;
    look(st, counts, words, flags, identity)
}

// The query of a table whose tests passed.
pub fn look<E: Stored>(
    st: State,
    counts: &[u64; 32],
    words: &[E],
    flags: &[u8],
    identity: u64,
) -> Result<Finding, QueryRefusal>
    requires { Valid st counts.now (length (E.words words.now)) (length flags.now) }
    ensures { result ≡ look_of st (E.words words.now) flags.now identity }
{
    let probing = Probing {
        key: elastic_key(st.seed, identity),
        n: st.n,
        last: st.plan.levels - 1,
        cap: st.limits.range_word_cap,
    };
    let look = Lookup {
        id: identity,
        probing,
        cap: st.limits.hit_query_position_cap,
    };
    Walk { words, flags, look }.find()
}
