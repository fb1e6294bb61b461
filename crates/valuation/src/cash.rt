//! The cash that is added up.
ghost use Rattle.std.specs.Prelude.{◌≡◌, ◌≤◌};
ghost use Rattle.valuation.specs.Cash.{cash_of, IsWorkable};

use crate::basis::Basis;
use account::block::Block;
use account::line::Line;
use account::side::Side;
use quantities::amount::{Cents, present_value_down, present_value_up};
use quantities::date::term_days;
use quantities::range::Cash;
use quantities::term::Term;

/// The cash of a line: that of a trade is discounted, and rounded up where it is charged, down
/// where it is credited.
pub(crate) fn cash_of<B: Basis>(basis: &B, line: Line) -> Cents
    requires { IsWorkable (B.setting basis.now) line }
    ensures is { result ≡ cash_of (B.setting basis.now) line }
    ensures high { result ≤ 2000000000000 }
{
    let Block::Trade(date) = line.block else {
        return line.cash;
    };
    let cash = Cash { cents: line.cash };
    let term = Term {
        days: term_days(basis.today(), date),
    };
    let rate = basis.rate_for(term.days).unwrap();
    match line.side {
        Side::Bought => present_value_up(cash, rate, term),
        Side::Sold => present_value_down(cash, rate, term),
    }
}
