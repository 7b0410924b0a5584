// Counters, words and reductions: EP FP EW FW ER FR.
use probe::counter::Domain;
use probe::range::{Index, ReduceRefusal};
use refusal::Name;
use script::print::{Numbers, Refusal};
use words::product::Wide;

// A domain by its tag and level, of which a special one has none.
pub(crate) fn domain(tag: u64, level: u64) -> Result<Domain, Refusal> {
    match (tag, level) {
        (0, _) => Ok(Domain::Ordinary { level }),
        (1, 0) => Ok(Domain::Primary),
        (2, 0) => Ok(Domain::FallbackA),
        (3, 0) => Ok(Domain::FallbackB),
        _ => Err(Refusal::Unknown),
    }
}

// A counter, or a word at one, if it can be packed.
pub(crate) fn number_or_counter(packed: Option<u64>) -> Result<Numbers, Refusal> {
    packed
        .map(Numbers::from)
        .ok_or(Refusal::Named(Name::Counter))
}

// An index and its words.
pub(crate) fn index_or(reduced: Result<Index, ReduceRefusal>) -> Result<Numbers, Refusal> {
    match reduced {
        Ok(Index { index, words }) => Ok(Numbers {
            first: Wide { hi: 0, lo: index },
            second: Some(words),
        }),
        Err(ReduceRefusal::Upper) => Err(Refusal::Named(Name::Upper)),
        Err(ReduceRefusal::Counter) => Err(Refusal::Named(Name::Counter)),
        Err(ReduceRefusal::Range(range)) => Err(Refusal::from(range)),
    }
}
