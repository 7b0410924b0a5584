// The public calls. Each tests 1 to 7 in order, and then does the call on a valid table.
ghost use Rattle.std.specs.Prelude.{◌≡◌};
ghost use Rattle.image_calls.specs.Calls.{write_gate, write_image_of, loadings, load_image_of};
ghost use Rattle.image_calls.specs.declared.calls.LoadImageRefusal.TheVariants as loading;
ghost use Rattle.image_writer.specs.Writing.{writes};

use crate::loader::{LoadRefusal, load};
use funnel::table::FunnelTable;
use funnel_calls::calls::table_gate;
use geometry_funnel::plan::funnel_gate;
use image::field::LABEL_MOST;
use image_writer::writer::{WriteRefusal, write};
use refusal::Gate;

// What is loaded: the table with its new count, and the place of the label's body, two zeros if there is none.
#[derive(Clone, Copy)]
pub struct Loaded {
    pub table: FunnelTable,
    pub label_at: u64,
    pub label_len: u64,
}

// Why nothing is loaded: a refusal of the gate, or of the loader behind it.
#[derive(Clone, Copy, Debug, PartialEq, Eq)]
pub enum LoadImageRefusal {
    Gate(Gate),
    Load(LoadRefusal),
}

impl From<Gate> for LoadImageRefusal {
    ghost from_gives = { λ g refused. refused ≡ loading.Gate g };

    fn from(gate: Gate) -> LoadImageRefusal {
        LoadImageRefusal::Gate(gate)
    }
}

impl From<LoadRefusal> for LoadImageRefusal {
    ghost from_gives = { λ r refused. refused ≡ loading.Load r };

    fn from(refusal: LoadRefusal) -> LoadImageRefusal {
        LoadImageRefusal::Load(refusal)
    }
}

// The image of a table, into `out`, and its length; bytes past it stay as they were.
pub fn write_image(
    table: FunnelTable,
    counts: &[u64; 118],
    words: &[u64],
    flags: &[u8],
    label: &[u8],
    out: &mut [u8],
) -> Result<u64, WriteRefusal>
    ensures { writes result out.new ≡ write_image_of table counts.now words.now flags.now label.now out.old }
{
    write_gate(
        table,
        counts,
        words.len() as u64,
        flags.len() as u64,
        label.len(),
    )?;
    write(table, words, flags, label, out)
}

// A table from an image of it.
pub fn load_image(
    table: FunnelTable,
    counts: &[u64; 118],
    words: &mut [u64],
    flags: &mut [u8],
    image: &[u8],
) -> Result<Loaded, LoadImageRefusal>
    ensures { loadings result words.new flags.new ≡ load_image_of table counts.now words.old flags.old image.now }
{
    table_gate(table, counts, words.len() as u64, flags.len() as u64)?;
    let filled = load(table, words, flags, image)?;
    let mut next = table;
    next.count = filled.count;
    Ok(Loaded {
        table: next,
        label_at: filled.label_at,
        label_len: filled.label_len,
    })
}

// The tests 1 to 7 of the writer. A long label is LIMITS, so it is told before STATE and after LAYOUT.
pub fn write_gate(
    table: FunnelTable,
    counts: &[u64; 118],
    words: u64,
    flags: u64,
    label: usize,
) -> Result<(), Gate>
    ensures { result ≡ write_gate table counts.now words flags label }
{
    if label <= LABEL_MOST {
        return table_gate(table, counts, words, flags);
    }
    funnel_gate(table.n, table.e)?;
    Err(Gate::Limits)
}
