// What names a table. An image says it first, and the loader holds it against the table's.

#[derive(Clone, Copy, Debug, PartialEq, Eq)]
pub struct Head {
    pub n: u64,
    pub e: u64,
    pub seed: u64,
}
