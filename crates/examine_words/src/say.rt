// What the lines are made of: refusals by name and number, text with escapes, identities, shares.
use refusal::Gate;
use std::fmt;
use std::fmt::Display;
use text::buffers::MOST_SLOTS;
use text::out::Out;

// A refusal of the gate, with its name, its number and what it means.
pub fn put_gate(gate: Gate, out: &mut Out) {
    let number = refusal::number(refusal::gate_name(gate));
    let (name, meaning) = meaning_of(gate);
    writeln!(out, "refused     {name} ({number}): {meaning}");
}

fn meaning_of(gate: Gate) -> (&'static str, &'static str) {
    match gate {
        Gate::N => ("N", "n is below 2"),
        Gate::ZeroExp => ("ZEROEXP", "e is 0"),
        Gate::Size => ("SIZE", "n is above 4294967296"),
        Gate::Exponent => ("EXPONENT", "e is below 3, so it is no funnel table's"),
        Gate::Layout => ("LAYOUT", "no funnel table has this n and e"),
        Gate::Limits => ("LIMITS", "the word cap is not 1 to 256"),
        Gate::State => ("STATE", "the count is above n"),
    }
}

// Printable bytes as they are, others as \x and two digits, with a backslash before a quote and before a backslash.
#[derive(Clone, Copy)]
pub struct Escaped<'a>(pub &'a [u8]);

impl<'a> Display for Escaped<'a> {
    fn fmt<W: fmt::Write>(&self, f: &mut fmt::Formatter<W>) -> fmt::Result {
        for b in self.0 {
            match *b {
                b'"' => write!(f, "\\\"")?,
                b'\\' => write!(f, "\\\\")?,
                32..=126 => write!(f, "{}", char::from(*b))?,
                _ => write!(f, "\\x{b:02x}")?,
            }
        }
        Ok(())
    }
}

// An identity, in both ways that people write one.
#[derive(Clone, Copy)]
pub struct Identity(pub u64);

impl Display for Identity {
    fn fmt<W: fmt::Write>(&self, f: &mut fmt::Formatter<W>) -> fmt::Result {
        let identity = self.0;
        write!(f, "{identity} (0x{identity:016x})")
    }
}

// The share of a part of a whole as a percentage, rounded down to hundredths.
#[derive(Clone, Copy)]
pub struct Share {
    pub part: u64,
    pub whole: u64,
}

impl Share {
    // In hundredths of a percent; a part that no table here has counts as all.
    fn hundredths(self) -> u64 {
        if self.whole == 0 {
            return 0;
        }
        if MOST_SLOTS < self.part {
            return 10000;
        }
        self.part * 10000 / self.whole
    }
}

impl Display for Share {
    fn fmt<W: fmt::Write>(&self, f: &mut fmt::Formatter<W>) -> fmt::Result {
        let share = self.hundredths();
        write!(f, "{}.{:02} %", share / 100, share % 100)
    }
}
