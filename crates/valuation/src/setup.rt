//! A market, a curve and a netting rule.
ghost use Rattle.valuation.specs.Setups.{setting_of};

use crate::basis::Basis;
use crate::quote::Quote;
use curve::Curve;
use market::market::Market;
use netting::{NettingRule, Position};
use quantities::date::{Date, residual_life};
use quantities::isin::Isin;
use quantities::range::{Rate, Titles};
use quantities::refusal::Refusal;

/// A day's market, a discount curve and the account's netting rule.
#[derive(Drop)]
pub struct Setup<'a, 'p, C, N> {
    pub market: &'a Market<'p>,
    pub curve: &'a C,
    pub rule: &'a N,
}

impl<'a, 'p, C: Curve, N: NettingRule> Basis for Setup<'a, 'p, C, N> {
    ghost setting = { setting_of C.Curve.reach C.Curve.rate N.NettingRule.charged };

    fn today(&self) -> Date {
        self.market.today()
    }

    fn next(&self) -> Date {
        self.market.next()
    }

    fn quote_of(&self, guess: &mut usize, isin: Isin) -> Result<Quote, Refusal> {
        let price = self.market.price_near(guess, isin).ok_or(Refusal::NoPrice)?;
        let life = residual_life(self.market.today(), price.maturity);
        let percentage = self
            .market
            .percentage_for(life)
            .ok_or(Refusal::NoPercentage)?;
        Ok(Quote {
            price: price.price,
            percentage,
        })
    }

    fn rate_for(&self, term: u16) -> Result<Rate, Refusal> {
        self.curve.rate_for(term)
    }

    fn charge(&self, position: Position) -> Titles {
        self.rule.charge(position)
    }
}
