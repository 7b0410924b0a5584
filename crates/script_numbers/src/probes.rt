// A command on numbers told by its word.
use crate::draws::{domain, index_or, number_or_counter};
use crate::phi::{bounded, coordinates, position};
use crate::smallest;
use crate::smallest::minimum;
use elastic_probe::budget::budget;
use probe::counter::{elastic_counter, funnel_counter};
use probe::mix::mix64;
use probe::range::{elastic_reduce, funnel_reduce};
use probe::word::{elastic_word, funnel_word};
use refusal::Name;
use script::print::{Numbers, Refusal, put_answer};
use text::field::Fields;
use text::out::Out;
use words::place::LogicalProbe;

// The answer to a command by its word.
pub fn command(word: &[u8], fields: Fields, out: &mut Out) {
    match word {
        b"SN" => smallest::command(fields, out),
        _ => put_answer(answer(word, fields), out),
    }
}

fn answer(word: &[u8], fields: Fields) -> Result<Numbers, Refusal> {
    match word {
        b"MIX" => {
            let [x] = arguments::<1>(fields)?;
            Ok(Numbers::from(mix64(x)))
        }
        b"PHI" => position(fields),
        b"PHB" => {
            let [i, j] = arguments::<2>(fields)?;
            bounded(i, j)
        }
        b"PHINV" => coordinates(fields),
        b"MS" => {
            let [e, from] = arguments::<2>(fields)?;
            minimum(e, from)
        }
        b"BUD" => {
            let [free, level, e, c] = arguments::<4>(fields)?;
            budgeted(free, level, e, c)
        }
        _ => draw(word, fields),
    }
}

// Counters, words and reductions.
fn draw(word: &[u8], fields: Fields) -> Result<Numbers, Refusal> {
    match word {
        b"EP" => {
            let [level, probe, retry] = arguments::<3>(fields)?;
            number_or_counter(elastic_counter(level, LogicalProbe(probe), retry))
        }
        b"EW" => {
            let [seed, identity, level, probe, retry] = arguments::<5>(fields)?;
            let probe = LogicalProbe(probe);
            number_or_counter(elastic_word(seed, identity, level, probe, retry))
        }
        b"ER" => {
            let [seed, identity, level, probe, upper, cap] = arguments::<6>(fields)?;
            let probe = LogicalProbe(probe);
            index_or(elastic_reduce(seed, identity, level, probe, upper, cap))
        }
        b"FP" => {
            let [tag, level, probe, retry] = arguments::<4>(fields)?;
            number_or_counter(funnel_counter(domain(tag, level)?, LogicalProbe(probe), retry))
        }
        b"FW" => {
            let [seed, identity, tag, level, probe, retry] = arguments::<6>(fields)?;
            let probe = LogicalProbe(probe);
            number_or_counter(funnel_word(seed, identity, domain(tag, level)?, probe, retry))
        }
        b"FR" => {
            let [seed, identity, tag, level, probe, upper, cap] = arguments::<7>(fields)?;
            let probe = LogicalProbe(probe);
            index_or(funnel_reduce(seed, identity, domain(tag, level)?, probe, upper, cap))
        }
        _ => Err(Refusal::Unknown),
    }
}

// The fields as just so many numbers.
pub(crate) fn arguments<const N: usize>(fields: Fields) -> Result<[u64; N], Refusal> {
    fields.just_numbers::<N>().ok_or(Refusal::Unknown)
}

// An argument of 32 bits.
pub(crate) fn of_32_bits(x: u64) -> Result<u32, Refusal> {
    u32::try_from(x).map_err(|_| Refusal::Unknown)
}

fn budgeted(free: u64, level: u64, e: u64, c: u64) -> Result<Numbers, Refusal> {
    of_32_bits(e)?;
    match budget(free, level, e, c) {
        Ok(probes) => Ok(Numbers::from(probes)),
        Err(refused) => Err(Refusal::Valued(Name::Budget, refused.reason())),
    }
}
