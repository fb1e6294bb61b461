//! The margin of lines, and its statement.
ghost use Rattle.std.specs.Prelude.{◌≡◌, ◌+◌, ◌*◌, ◌≤◌, length};
ghost use Rattle.account.specs.Lines.{is_trade, keep};
ghost use Rattle.account.specs.Margin.{not_below_zero};
ghost use Rattle.valuation.specs.Spaces.{ChargesWithin, TallyWithin};
ghost use Rattle.valuation.specs.Tallies.{tally_cents};

use crate::tally::Tally;
use account::block::Block;
use account::by_isin::ByIsin;
use account::line::Line;
use account::margin::Margin;
use quantities::amount::{Cents, SignedCents};

/// A margin, and how many rows its statement has.
// A count and not the rows: they stand in memory that the caller lent and keeps.
#[derive(Clone, Copy)]
pub struct StatedMargin {
    pub margin: Margin,
    pub rows: usize,
}

// The charges of a block, or nothing where they are negative.
fn not_below_zero(charges: SignedCents) -> Cents
    requires { ChargesWithin 65535 charges }
    ensures is { result ≡ not_below_zero charges }
    ensures high { result ≤ 3000000000000 * 65535 }
{
    charges.max(0) as u64
}

// Whether a line is a trade.
fn is_trade(line: &Line) -> bool
    ensures { result ≡ is_trade line.now }
{
    matches!(line.block, Block::Trade(_))
}

/// How many lines are trades.
pub(crate) fn trades_in(lines: &ByIsin<'_>) -> u32
    requires { length lines.now ≤ 65535 }
    ensures is { result ≡ length (keep is_trade lines.now) }
    ensures few { result ≤ 65535 }
{
    let mut trades = 0;
    for line in lines.iter() {
        if is_trade(line) {
            trades += 1;
        }
    }
    trades
}

/// The margin of a tally, for so many trades: a present value is rounded for each.
pub(crate) fn total(tally: &Tally<'_>, trades: u32) -> Margin
    requires within { TallyWithin 65535 tally.now }
    requires few { trades ≤ 65535 }
    ensures cents { result.cents ≡ tally_cents tally.now }
    ensures rounded { result.rounded_amounts ≡ tally.now.rounded_amounts + trades }
{
    let titled = not_below_zero(tally.trades)
        + not_below_zero(tally.failed)
        + not_below_zero(tally.held);
    Margin {
        cents: titled + not_below_zero(tally.cash_only),
        rounded_amounts: tally.rounded_amounts + trades,
    }
}
