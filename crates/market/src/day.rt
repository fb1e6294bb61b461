//! The day of a margin.
ghost use Rattle.std.specs.Prelude.{◌≡◌, ◌+◌, ◌≤◌};
ghost use Rattle.market.specs.Days.{day_answer};
ghost use Rattle.quantities.specs.RangeChecks.{numbers_of};

use quantities::date::Date;
use quantities::refusal::Refusal;

/// Today and the business day after it, 1 to 10 days later.
#[derive(Clone, Copy, PartialEq, Eq)]
pub struct Day {
    pub today: Date,
    pub next: Date,
    ghost after: { today + 1 ≤ next },
    ghost within: { next ≤ today + 10 },
}

impl Day {
    /// How many days after today the next business day is at the latest.
    pub const LATEST_NEXT: u16 = 10;

    /// The day with those dates; refuses a next business day that is not 1 to 10 days after today.
    pub fn new(today: Date, next: Date) -> Result<Day, Refusal>
        ensures { numbers_of (λ day. (day.today, day.next)) result ≡ day_answer today next }
    {
        match next {
            early if early <= today => Err(Refusal::Date),
            late if late - today > Day::LATEST_NEXT => Err(Refusal::Date),
            _ => Ok(Day { today, next }),
        }
    }
}
