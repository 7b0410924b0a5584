// The budget: how many probes an elastic insertion spends in its current level before it turns to the next.
ghost use Rattle.std.specs.Prelude.{◌≡◌};
ghost use Rattle.elastic_probe.specs.Budget.{reason_of, budget_of};

use words::power::ceil_log2;
use words::product::{multiply, multiply_high};

// Why there is no budget.
#[derive(Clone, Copy)]
pub enum BudgetRefusal {
    Free,
    Factor,
    Product,
}

impl BudgetRefusal {
    // The number that a report gives.
    pub fn reason(self) -> u64
        ensures { result ≡ reason_of self }
    {
        match self {
            BudgetRefusal::Free => 1,
            BudgetRefusal::Factor => 2,
            BudgetRefusal::Product => 3,
        }
    }
}

// c * min(ceil(log2(ceil(level/free)))^2, e): the Rust's `elastic_dyadic_probe_budget`. A budget of 0 is a budget.
pub fn budget(free: u64, level: u64, e: u64, c: u64) -> Result<u64, BudgetRefusal>
    ensures { result ≡ budget_of free level e c }
{
    if free == 0 || level < free {
        return Err(BudgetRefusal::Free);
    }
    if c == 0 {
        return Err(BudgetRefusal::Factor);
    }
    let log = ceil_log2((level - 1) / free + 1);
    let capped = (log * log).min(e);
    if 0 < multiply_high(c, capped) {
        return Err(BudgetRefusal::Product);
    }
    Ok(multiply(c, capped))
}
