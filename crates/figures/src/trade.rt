//! One trade by itself, and the steps from it to its charge.
use crate::trade::charge_steps::ChargeSteps;
use crate::trade::parts::Parts;
use account::side::Side;
use netting::{NettingRule, Position};
use quantities::amount::{initial_margin, market_value, present_value_down, present_value_up};
use quantities::date::{Date, residual_life};
use quantities::isin::Isin;
use quantities::range::{Cash, MarginPercentage, Rate, Titles, UnitPrice};
use quantities::refusal::Refusal;
use quantities::term::Term;
use quantities::tranche::Tranche;

pub mod charge_steps;
pub mod parts;

/// A trade with what its charge is worked on, not yet held to its ranges.
#[derive(Clone, Copy)]
pub struct Trade {
    pub today: Date,
    pub isin: Isin,
    pub side: Side,
    pub titles: u32,
    pub cash: u64,
    pub settlement: Date,
    pub price: u32,
    pub maturity: Date,
    pub percentage: u16,
    pub rate: i16,
}

impl Trade {
    ghost use Rattle.std.specs.Prelude.{◌≡◌};
    ghost use Rattle.account.specs.Lines.{if_bought, if_sold};
    ghost use Rattle.figures.specs.Trades.{ChecksTrade, ValuesTrade};

    // The titles on their side, and none on the other.
    fn position(&self, titles: Titles) -> Position
        ensures bought { result.bought.count ≡ if_bought self.now.side titles.count }
        ensures sold { result.sold.count ≡ if_sold self.now.side titles.count }
    {
        let (bought, sold) = match self.side {
            Side::Bought => (titles, Titles { count: 0 }),
            Side::Sold => (Titles { count: 0 }, titles),
        };
        Position { bought, sold }
    }

    fn parts(&self) -> Result<Parts, Refusal>
        ensures { ChecksTrade self.now result }
    {
        if !self.isin.is_valid() || self.titles == 0 {
            return Err(Refusal::Value);
        }
        let titles = Titles::try_from(self.titles)?;
        let position = self.position(titles);
        let cash = Cash::try_from(self.cash)?;
        let price = UnitPrice::try_from(self.price)?;
        let percentage = MarginPercentage::try_from(self.percentage)?;
        let rate = Rate::try_from(self.rate)?;
        Ok(Parts {
            position,
            cash,
            price,
            percentage,
            rate,
        })
    }

    /// Each step from the trade to its charge, by any netting rule.
    pub(crate) fn value<N: NettingRule>(&self, rule: &N) -> Result<ChargeSteps, Refusal>
        ensures { ValuesTrade (N.NettingRule.charged rule.now) self.now result }
    {
        let parts = self.parts()?;
        let term = Term::of_trade(self.today, self.settlement)?;
        let charged = rule.charge(parts.position);
        let initial = initial_margin(charged, parts.price, parts.percentage);
        let variation = parts.variation_margin(self.side, term);
        Ok(ChargeSteps {
            term,
            tranche: Tranche::of_life(residual_life(self.today, self.maturity)),
            present_value_up: present_value_up(parts.cash, parts.rate, term),
            present_value_down: present_value_down(parts.cash, parts.rate, term),
            charged,
            initial_margin: initial,
            market_value: market_value(parts.price, parts.position.bought, parts.position.sold),
            variation_margin: variation,
            charge: initial as i64 - variation,
        })
    }
}
