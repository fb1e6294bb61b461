//! The term of a trade.
ghost use Rattle.std.specs.Prelude.{◌≡◌, ◌≤◌};
ghost use Rattle.quantities.specs.RangeChecks.{numbers_of};
ghost use Rattle.quantities.specs.Dates.{term_answer};
ghost use Rattle.quantities.specs.Ranges.{longest_term};

use crate::date::{Date, settlement_date, term_days};
use crate::refusal::Refusal;

/// The term of a trade, 0 to 364 days.
#[derive(Clone, Copy, Debug, PartialEq, Eq, Hash, PartialOrd, Ord)]
pub struct Term {
    pub days: u16,
    ghost within: { days ≤ longest_term },
}

impl Term {
    /// The term of a trade that settles on a date.
    pub fn of_trade(today: Date, settlement: Date) -> Result<Term, Refusal>
        ensures { numbers_of (λ t. t.days) result ≡ term_answer today settlement }
    {
        let date = settlement_date(today, settlement)?;
        Ok(Term {
            days: term_days(today, date),
        })
    }
}
