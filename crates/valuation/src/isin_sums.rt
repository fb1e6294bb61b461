//! The sums of the lines of one ISIN, for each of the rows that it may have.
ghost use Rattle.std.specs.Prelude.{◌≡◌, ◌≤◌};
ghost use Rattle.account.specs.declared.scope.Scope.{Scope};
ghost use Rattle.valuation.specs.IsinSums.{scope_sums, AddsLineToEach};
ghost use Rattle.valuation.specs.LineSums.{no_sums, SumsWithin};

use crate::basis::Basis;
use crate::line_sums::LineSums;
use account::line::Line;
use account::scenario::Scenario;
use account::scope::Scope;
use quantities::amount::Cents;

/// The sums of the lines of one ISIN, for each row.
#[derive(Clone, Copy)]
pub(crate) struct IsinSums {
    all_trades: LineSums,
    without_today: LineSums,
    after_next: LineSums,
    failed: LineSums,
    held: LineSums,
    cash_only: LineSums,
}

impl IsinSums {
    /// The sums of no lines.
    pub(crate) fn none() -> IsinSums
        ensures { (scope : Scope) → scope_sums result scope ≡ no_sums }
    {
        let none = LineSums::none();
        IsinSums {
            all_trades: none,
            without_today: none,
            after_next: none,
            failed: none,
            held: none,
            cash_only: none,
        }
    }

    /// The sums for a row.
    pub(crate) fn scope_sums(&self, scope: Scope) -> LineSums
        ensures { result ≡ scope_sums self.now scope }
    {
        match scope {
            Scope::Trades(Scenario::AllTrades) => self.all_trades,
            Scope::Trades(Scenario::WithoutToday) => self.without_today,
            Scope::Trades(Scenario::AfterNext) => self.after_next,
            Scope::FailedLines => self.failed,
            Scope::HeldLines => self.held,
            Scope::CashOnlyLines => self.cash_only,
        }
    }

    /// Adds a line with its cash to the sums for each row that is worked on it.
    pub(crate) fn add<B: Basis>(&mut self, basis: &B, line: Line, cash: Cents)
        requires room { (scope : Scope) → SumsWithin 65535 (scope_sums self.old scope) }
        requires high { cash ≤ 2000000000000 }
        ensures { AddsLineToEach (B.setting basis.now) line cash self.old self.new }
    {
        self.all_trades
            .add(basis, Scope::Trades(Scenario::AllTrades), line, cash);
        self.without_today
            .add(basis, Scope::Trades(Scenario::WithoutToday), line, cash);
        self.after_next
            .add(basis, Scope::Trades(Scenario::AfterNext), line, cash);
        self.failed.add(basis, Scope::FailedLines, line, cash);
        self.held.add(basis, Scope::HeldLines, line, cash);
        self.cash_only.add(basis, Scope::CashOnlyLines, line, cash);
    }
}
