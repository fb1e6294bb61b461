//! The parts of a trade as quantities.
use account::side::Side;
use netting::Position;
use quantities::amount::{SignedCents, market_value, present_value_down, present_value_up};
use quantities::range::{Cash, MarginPercentage, Rate, UnitPrice};
use quantities::term::Term;

/// The parts of a trade, each within its range.
#[derive(Clone, Copy)]
pub struct Parts {
    pub position: Position,
    pub cash: Cash,
    pub price: UnitPrice,
    pub percentage: MarginPercentage,
    pub rate: Rate,
}

impl Parts {
    ghost use Rattle.std.specs.Prelude.{◌≡◌, pos, negsuc, ◌≤ℤ◌};
    ghost use Rattle.figures.specs.Trades.{variation_margin_of_parts};

    pub(crate) fn variation_margin(&self, side: Side, term: Term) -> SignedCents
        ensures is { result ≡ variation_margin_of_parts side term.days self.now }
        ensures low { negsuc 2999999999999 ≤ℤ result }
        ensures high { result ≤ℤ pos 3000000000000 }
    {
        let value = market_value(self.price, self.position.bought, self.position.sold);
        match side {
            Side::Bought => value - present_value_up(self.cash, self.rate, term) as i64,
            Side::Sold => value + present_value_down(self.cash, self.rate, term) as i64,
        }
    }
}
