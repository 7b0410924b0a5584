// A run taken apart: what its table is opened with, and what is asked of it.
ghost use Rattle.std.specs.Prelude.{◌≡◌, ◌+◌, ◌≤◌, length, IfSome};
ghost use Rattle.std.specs.Result.{IfOk};
ghost use Rattle.script.specs.Operations.{Asks};
ghost use Rattle.text.specs.Fields.{fields_left};

use crate::operation::{Kind, Operations, parse};
use crate::print::Refusal;
use geometry_funnel::plan::funnel_gate;
use refusal::Name;
use text::buffers::MOST_SLOTS;
use text::field::Fields;

// What a funnel table is opened with.
#[derive(Clone, Copy)]
pub struct Opening {
    pub n: u64,
    pub e: u32,
    pub seed: u64,
    pub cap: u64,
}

// How a run gives its operations.
#[derive(Clone, Copy)]
pub enum Form {
    Listed,
    Bulk,
}

// The fields n e seed cap that each command on a funnel table starts with, or none.
pub fn opening_of(fields: &mut Fields) -> Option<Opening>
    ensures { IfSome result (λ _. length (fields_left fields.old) ≡ length (fields_left fields.new) + 4) }
{
    let [n, e, seed, cap] = fields.numbers::<4>()?;
    Some(Opening {
        n,
        e: u32::try_from(e).ok()?,
        seed,
        cap,
    })
}

// What keeps a funnel table from being opened here: a refusal by 1 to 6, or its size.
pub fn opening_gate(opening: Opening) -> Result<(), Refusal>
    ensures { IfOk result (λ _. opening.n ≤ 65536) }
{
    funnel_gate(opening.n, opening.e)?;
    if opening.cap < 1 || 256 < opening.cap {
        return Err(Refusal::Named(Name::Limits));
    }
    size_gate(opening.n)
}

// A table of more slots than there is room for is too large.
pub fn size_gate(n: u64) -> Result<(), Refusal>
    ensures { IfOk result (λ _. n ≤ 65536) }
{
    if MOST_SLOTS < n {
        return Err(Refusal::Large);
    }
    Ok(())
}

// What the fields that are left ask of a table of n slots, or none.
pub fn operations_of(form: Form, fields: Fields, kind: Kind, n: u64) -> Option<Operations>
    ensures { IfSome result (λ operations. Asks form (length (fields_left fields.entry)) operations) }
{
    match form {
        Form::Bulk => {
            let [start, many] = fields.just_numbers::<2>()?;
            Some(Operations::Bulk {
                start,
                many,
                done: 0,
            })
        }
        Form::Listed => {
            let mut listed = fields;
            if listed.all(|field| parse(field, kind, n).is_some()) {
                Some(Operations::Listed { fields, kind, n })
            } else {
                None
            }
        }
    }
}
