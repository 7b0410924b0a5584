// A command taken apart: the table that it opens, and what it asks of it.
use elastic::state::{Limits, setting_gate};
use script::operation::{Kind, Operations};
use script::print::Refusal;
use script::request::{Form, operations_of, size_gate};
use text::field::Fields;

// What a table is opened with.
#[derive(Clone, Copy)]
pub struct Setting {
    pub n: u64,
    pub e: u32,
    pub seed: u64,
    pub limits: Limits,
}

// A command.
#[derive(Clone, Copy)]
pub struct Asked<'a> {
    pub setting: Setting,
    pub operations: Operations<'a>,
}

// n e seed c wordcap searchcap poscap, and then the operations, or start and count; or what is answered in its place.
pub(crate) fn asked_by(form: Form, fields: Fields) -> Result<Asked, Refusal> {
    let asked = command_of(form, fields).ok_or(Refusal::Unknown)?;
    let setting = asked.setting;
    setting_gate(setting.n, setting.e, setting.limits)?;
    size_gate(setting.n)?;
    Ok(asked)
}

fn command_of(form: Form, mut fields: Fields) -> Option<Asked> {
    let setting = setting_of(fields.numbers::<7>()?)?;
    let operations = operations_of(form, fields, Kind::Elastic, setting.n)?;
    Some(Asked {
        setting,
        operations,
    })
}

fn setting_of(row: [u64; 7]) -> Option<Setting> {
    let [n, e, seed, c, word_cap, search_cap, position_cap] = row;
    Some(Setting {
        n,
        e: u32::try_from(e).ok()?,
        seed,
        limits: Limits {
            probe_budget_c: c,
            range_word_cap: word_cap,
            uniform_search_probe_cap: search_cap,
            hit_query_position_cap: position_cap,
        },
    })
}
