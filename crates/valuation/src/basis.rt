//! What lines are margined on.
ghost use Rattle.std.specs.Prelude.{◌≡◌};
ghost use Rattle.account.specs.Settings.{Setting};
ghost use Rattle.curve.specs.Curves.{rate_answer};
ghost use Rattle.quantities.specs.RangeChecks.{numbers_of};
ghost use Rattle.valuation.specs.Quotes.{quote_parts, quote_answer};

use crate::quote::Quote;
use netting::Position;
use quantities::date::Date;
use quantities::isin::Isin;
use quantities::range::{Rate, Titles};
use quantities::refusal::Refusal;

/// A day with its prices, percentages and rates, and an account's netting rule: together they mean
/// one setting.
pub(crate) trait Basis {
    ghost setting: { Self → Setting };

    /// Today.
    fn today(&self) -> Date
        ensures { result ≡ (setting self.now).today };

    /// The business day after today.
    fn next(&self) -> Date
        ensures { result ≡ (setting self.now).next };

    /// The quote of an ISIN; refuses one without a price, and one whose tranche has no percentage.
    /// There is a guess of the place of its price, which then moves to the place behind.
    fn quote_of(&self, guess: &mut usize, isin: Isin) -> Result<Quote, Refusal>
        ensures { numbers_of quote_parts result ≡ quote_answer (setting self.now) isin };

    /// The rate for a term; refuses a term that is not below the reach.
    fn rate_for(&self, term: u16) -> Result<Rate, Refusal>
        ensures { let s = setting self.now in
            numbers_of (λ r. r.basis_points) result ≡ rate_answer s.reach s.rate term };

    /// The titles that trades are charged for.
    fn charge(&self, position: Position) -> Titles
        ensures { let rule = (setting self.now).charged in
            result.count ≡ rule position.bought.count position.sold.count };
}
