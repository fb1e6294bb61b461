//! A sum over the lines of each side.
ghost use Rattle.std.specs.Prelude.{◌≡◌, ◌+◌, ◌<◌, ◌^◌};
ghost use Rattle.account.specs.Lines.{if_bought, if_sold};

use account::side::Side;

/// A sum over the lines bought, and one over the lines sold.
#[derive(Clone, Copy)]
pub(crate) struct PerSide {
    pub bought: u64,
    pub sold: u64,
}

impl PerSide {
    /// Adds a number on a side.
    pub(crate) fn add(&mut self, side: Side, number: u64)
        requires bought { self.old.bought + number < 2 ^ 64 }
        requires sold { self.old.sold + number < 2 ^ 64 }
        ensures bought { self.new.bought ≡ self.old.bought + if_bought side number }
        ensures sold { self.new.sold ≡ self.old.sold + if_sold side number }
    {
        match side {
            Side::Bought => self.bought += number,
            Side::Sold => self.sold += number,
        }
    }
}
