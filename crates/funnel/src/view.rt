// A valid table that is lent to be read, and an identity that is sought in it.
ghost use Rattle.funnel.specs.Valid.{Valid, Keyed};
ghost use Rattle.funnel.specs.ValidProp.{Valid-prop};

use crate::table::FunnelTable;
use lent::store::Stored;
use probe::word::FunnelKey;

// A valid table, lent to be read: its numbers, the counts of its levels, its words and its flags.
#[derive(Drop)]
pub struct View<'a, E: Stored> {
    pub table: &'a FunnelTable,
    pub counts: &'a [u64; 118],
    pub words: &'a [E],
    pub flags: &'a [u8],
    pub ghost valid: { Valid table.now counts.now (E.words words.now) flags.now } by { Valid-prop table.now counts.now (E.words words.now) flags.now },
}

// An identity that is sought in such a table, with the key of its words.
#[derive(Drop)]
pub struct Sought<'a, E: Stored> {
    pub view: &'a View<'a, E>,
    pub identity: u64,
    pub key: FunnelKey,
    pub ghost keyed: { Keyed view.now.table.now.seed identity key },
}
