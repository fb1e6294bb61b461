//! A margin that is given.
ghost use Rattle.std.specs.Prelude.{Some};
ghost use Rattle.account.specs.Texts.{margin_text};

use quantities::amount::Cents;
use std::fmt;

/// A margin and the count of its rounded amounts.
#[derive(Clone, Copy, PartialEq, Eq, Debug)]
pub struct Margin {
    pub cents: Cents,
    pub rounded_amounts: u32,
}

impl fmt::Display for Margin {
    ghost output = { λ margin. Some (margin_text margin) };

    fn fmt<W: fmt::Write>(&self, f: &mut fmt::Formatter<W>) -> fmt::Result {
        let cents = self.cents;
        let count = self.rounded_amounts;
        write!(f, "{cents} cents, {count} rounded amounts")
    }
}
