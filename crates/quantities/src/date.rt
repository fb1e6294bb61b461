//! Dates: day numbers, of which day 0 is 1 January 2000.
ghost use Rattle.std.specs.Prelude.{◌≡◌};
ghost use Rattle.quantities.specs.RangeChecks.{numbers_of};
ghost use Rattle.quantities.specs.Dates.{term, settlement_date, past_date, residual_life};

use crate::refusal::Refusal;

/// A day number, 0 to 65,535.
pub type Date = u16;

/// How many days after today a trade settles at the latest.
pub const LATEST_SETTLEMENT: u16 = 365;

/// The date of a trade, which is from today to 365 days later.
pub fn settlement_date(today: Date, date: Date) -> Result<Date, Refusal>
    ensures { numbers_of (λ d. d) result ≡ settlement_date today date }
{
    // Guards, which say the two ends of the days one after the other.
    match date {
        early if early < today => Err(Refusal::Date),
        late if late - today > LATEST_SETTLEMENT => Err(Refusal::Date),
        _ => Ok(date),
    }
}

/// The date of any other line, which is today at the latest.
pub fn past_date(today: Date, date: Date) -> Result<Date, Refusal>
    ensures { numbers_of (λ d. d) result ≡ past_date today date }
{
    match date {
        future if future > today => Err(Refusal::Date),
        _ => Ok(date),
    }
}

/// The days from today to a settlement date, less one, or 0.
pub fn term_days(today: Date, settlement: Date) -> u16
    ensures { result ≡ term today settlement }
{
    settlement.saturating_sub(today).saturating_sub(1)
}

/// The days that a bond has left, or 0.
pub fn residual_life(today: Date, maturity: Date) -> u16
    ensures { result ≡ residual_life today maturity }
{
    maturity.saturating_sub(today)
}
