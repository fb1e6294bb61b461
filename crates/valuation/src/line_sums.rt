//! What the lines come to that a row is worked on.
ghost use Rattle.std.specs.Prelude.{◌≡◌, ◌≤◌};
ghost use Rattle.valuation.specs.LineSums.{no_sums, SumsWithin, AddsLine};

use crate::basis::Basis;
use crate::per_side::PerSide;
use crate::scope::is_in_scope;
use account::line::Line;
use account::scope::Scope;
use quantities::amount::Cents;

/// What the lines come to that a row is worked on: how many there are, their titles and their cash.
#[derive(Clone, Copy)]
pub(crate) struct LineSums {
    pub lines: u32,
    pub titles: PerSide,
    pub cash: PerSide,
}

impl LineSums {
    /// The sums of no lines.
    pub(crate) fn none() -> LineSums
        ensures { result ≡ no_sums }
    {
        let nothing = PerSide { bought: 0, sold: 0 };
        LineSums {
            lines: 0,
            titles: nothing,
            cash: nothing,
        }
    }

    /// Adds a line with its cash, where the row is worked on it.
    pub(crate) fn add<B: Basis>(&mut self, basis: &B, scope: Scope, line: Line, cash: Cents)
        requires room { SumsWithin 65535 self.old }
        requires high { cash ≤ 2000000000000 }
        ensures { AddsLine (B.setting basis.now) scope line cash self.old self.new }
    {
        if is_in_scope(basis, scope, &line) {
            self.lines += 1;
            self.titles.add(line.side, u64::from(line.titles));
            self.cash.add(line.side, cash);
        }
    }
}
