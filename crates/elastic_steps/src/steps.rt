// The steps of an insertion: which levels are searched, how far, and the slot that they choose.
ghost use Rattle.std.specs.Prelude.{◌≡◌, ◌+◌, ◌<◌, ◌≤◌, length};
ghost use Rattle.elastic.specs.State.{Valid, Affordable};
ghost use Rattle.elastic.specs.Reading.{seek_of};
ghost use Rattle.elastic_steps.specs.declared.answer.Case.TheVariants.{Case1};
ghost use Rattle.elastic_steps.specs.Insert.{free_at, steps_of, pair_of, uniform_of, budgeted_of};
ghost use Rattle.geometry.specs.Elastic.{levels_of, length_at};
ghost use Rattle.elastic_probe.specs.Budget.{probes_of};

use crate::answer::{Case, Choice, InsertRefusal};
use elastic::route::{Probing, Vacant};
use elastic::state::State;
use elastic_probe::budget::budget;
use geometry::elastic::level_length;
use refusal::RangeRefusal;
use words::power::floor_div_pow2;

// The steps of a batch.
pub fn steps(
    st: State,
    key: u64,
    counts: &[u64; 32],
    flags: &[u8],
    batch: u64,
) -> Result<Choice, InsertRefusal>
    requires { Valid st counts.now st.n (length flags.now) × (batch < levels_of st.n) }
    ensures { result ≡ steps_of st key counts.now flags.now batch }
{
    let table = Table {
        st,
        key,
        counts,
        flags,
    };
    if batch == 0 {
        return table.uniform(Case::Batch0 { level: 0 }, 0);
    }
    table.pair(batch - 1)
}

// A table whose tests passed, and the key of the identity that is to go in.
#[derive(Drop)]
struct Table<'a> {
    st: State,
    key: u64,
    counts: &'a [u64; 32],
    flags: &'a [u8],
    ghost valid: { Valid st counts.now st.n (length flags.now) },
}

impl<'a> Table<'a> {
    // The uniform search of a level.
    fn uniform(&self, case: Case, level: u64) -> Result<Choice, InsertRefusal>
        requires { level < levels_of self.now.st.n }
        ensures { result ≡ uniform_of self.now.st.n self.now.key self.now.st.limits.range_word_cap self.now.flags.now self.now.st.limits.uniform_search_probe_cap case level }
    {
        match self.seek(level, self.st.limits.uniform_search_probe_cap)? {
            Some(vacant) => Ok(Choice {
                case,
                level,
                slot: vacant.slot,
                probe: vacant.probe,
            }),
            None => Err(InsertRefusal::Search),
        }
    }

    // The search of a level with so many tries.
    fn seek(&self, level: u64, tries: u64) -> Result<Option<Vacant>, RangeRefusal>
        requires { (level < levels_of self.now.st.n) × (tries ≤ 8192) }
        ensures { result ≡ seek_of self.now.st.n self.now.key self.now.st.limits.range_word_cap self.now.flags.now level tries }
    {
        let st = self.st;
        let probing = Probing {
            key: self.key,
            n: st.n,
            last: st.plan.levels - 1,
            cap: st.limits.range_word_cap,
        };
        probing.seek(self.flags, level, tries)
    }

    // The steps of a batch with two levels, by which of them are low.
    fn pair(&self, current: u64) -> Result<Choice, InsertRefusal>
        requires { current + 1 < levels_of self.now.st.n }
        ensures { result ≡ pair_of self.now.st self.now.key self.now.counts.now self.now.flags.now current }
    {
        let next = current + 1;
        let here = self.room(current);
        let there = self.room(next);
        let free = here.free;
        let next_free = there.free;
        let reserve = floor_div_pow2(here.size, self.st.e as u64 + 1);
        let next_reserve = there.size / 4;
        if free <= reserve {
            if next_free <= next_reserve {
                return Err(InsertRefusal::Schedule);
            }
            let case = Case::Case2 {
                batch: next,
                current_level: current,
                next_level: next,
                free_current: free,
                free_next: next_free,
            };
            return self.uniform(case, next);
        }
        if next_free <= next_reserve {
            let case = Case::Case3 {
                batch: next,
                current_level: current,
                next_level: next,
                free_current: free,
                free_next: next_free,
            };
            return self.uniform(case, current);
        }
        self.budgeted(current, here, next_free)
    }

    fn room(&self, level: u64) -> Room
        requires { level < levels_of self.now.st.n }
        ensures { (result.size ≡ length_at self.now.st.n level) × (result.free ≡ free_at self.now.st.n self.now.counts.now level) × (result.size ≤ 4294967296) }
    {
        let size = level_length(self.st.n, self.st.plan.levels - 1, level);
        Room {
            size,
            free: size - self.counts[level as usize],
        }
    }

    // Neither is low: as many probes of the current level as the budget allows, then the next level uniformly.
    fn budgeted(&self, current: u64, room: Room, next_free: u64) -> Result<Choice, InsertRefusal>
        requires { (current + 1 < levels_of self.now.st.n) × Affordable room.free room.size self.now.st.e self.now.st.limits.probe_budget_c }
        ensures { result ≡ budgeted_of self.now.st.n self.now.key self.now.st.limits.range_word_cap self.now.flags.now self.now.st.limits.uniform_search_probe_cap (probes_of room.free room.size self.now.st.e self.now.st.limits.probe_budget_c) (Case1 (current + 1) current (current + 1) room.free next_free (probes_of room.free room.size self.now.st.e self.now.st.limits.probe_budget_c)) current (current + 1) }
    {
        let next = current + 1;
        let probes = probes_of(room, self.st.e as u64, self.st.limits.probe_budget_c);
        let case = Case::Case1 {
            batch: next,
            current_level: current,
            next_level: next,
            free_current: room.free,
            free_next: next_free,
            budget: probes,
        };
        self.then_next(case, current, probes)
    }

    // So many probes of a level, then the next one uniformly.
    fn then_next(&self, case: Case, current: u64, probes: u64) -> Result<Choice, InsertRefusal>
        requires { (current + 1 < levels_of self.now.st.n) × (probes ≤ 8192) }
        ensures { result ≡ budgeted_of self.now.st.n self.now.key self.now.st.limits.range_word_cap self.now.flags.now self.now.st.limits.uniform_search_probe_cap probes case current (current + 1) }
    {
        match self.seek(current, probes)? {
            Some(vacant) => Ok(Choice {
                case,
                level: current,
                slot: vacant.slot,
                probe: vacant.probe,
            }),
            None => self.uniform(case, current + 1),
        }
    }
}

// The slots of a level, and how many of them are not counted as taken.
#[derive(Clone, Copy)]
struct Room {
    size: u64,
    free: u64,
}

// The budget, which no table refuses.
fn probes_of(room: Room, e: u64, c: u64) -> u64
    requires { Affordable room.free room.size e c }
    ensures { (result ≡ probes_of room.free room.size e c) × (result ≤ 8192) }
{
    budget(room.free, room.size, e, c).unwrap()
}
