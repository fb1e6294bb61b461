//! What rows are charged.
ghost use Rattle.std.specs.Prelude.{◌≡◌};
ghost use Rattle.account.specs.Rows.{charge, worse};
ghost use Rattle.valuation.specs.RowCharges.{scope_rule, RowWithin};

use crate::basis::Basis;
use account::row::Row;
use account::scope::Scope;
use netting::{BothSides, NettingRule, Position};
use quantities::amount::SignedCents;
use quantities::range::Titles;

/// The titles charged: by the account's rule for trades, on both sides for any other lines.
pub(crate) fn charged_titles<B: Basis>(basis: &B, position: Position, scope: Scope) -> Titles
    ensures { let rule = scope_rule scope (B.setting basis.now).charged in
        result.count ≡ rule position.bought.count position.sold.count }
{
    // A match on what a row is of, which names the rule for each.
    match scope {
        Scope::Trades(_) => basis.charge(position),
        _ => BothSides.charge(position),
    }
}

/// The charge of a row.
// The bound is a clause and no invariant of Row: a row is plain data of the statement, and any may
// be written down.
pub(crate) fn charge_of(row: Row) -> SignedCents
    requires { RowWithin 65535 row }
    ensures { result ≡ charge row }
{
    row.initial_margin as SignedCents - row.variation_margin
}

/// The row with the larger charge, of equal charges the first.
pub(crate) fn worse_of(a: Row, b: Row) -> Row
    requires a { RowWithin 65535 a }
    requires b { RowWithin 65535 b }
    ensures { result ≡ worse a b }
{
    if charge_of(a) < charge_of(b) { b } else { a }
}
