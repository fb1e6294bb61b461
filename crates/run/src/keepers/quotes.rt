//! A market keeps the rows of prices and of percentages.
ghost use Rattle.std.specs.Prelude.{ℕ};
ghost use Rattle.market.specs.Contents.{Quotes};
ghost use Rattle.run.specs.Kept.{keep_price, keep_percentage};

use super::answer_with_reference;
use crate::keeper::Keeper;
use account::line_refusal::LineRefusal;
use market::market::Market;
use market::percentage::Percentage;
use market::price::Price;

impl<'a> Keeper<Price> for Market<'a> {
    ghost Kept = { Quotes };

    ghost kept = { λ m. m };

    ghost keeping = { keep_price };

    ghost Frame = { ℕ × (ℕ × ℕ) };

    ghost frame = { λ m. (m.today, (m.next, m.room)) };

    fn keep(&mut self, row: Price) -> Result<(), LineRefusal> {
        answer_with_reference(0, self.add_price(row))
    }
}

impl<'a> Keeper<Percentage> for Market<'a> {
    ghost Kept = { Quotes };

    ghost kept = { λ m. m };

    ghost keeping = { keep_percentage };

    ghost Frame = { ℕ × (ℕ × ℕ) };

    ghost frame = { λ m. (m.today, (m.next, m.room)) };

    fn keep(&mut self, row: Percentage) -> Result<(), LineRefusal> {
        answer_with_reference(0, self.add_percentage(row))
    }
}
