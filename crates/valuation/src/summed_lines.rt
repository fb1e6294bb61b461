//! Lines of one ISIN, summed up.
ghost use Rattle.std.specs.Prelude.{◌≡◌, ◌≤◌, length, IfSome, IsFalse, Ok};
ghost use Rattle.std.specs.Coded.{Π_prop};
ghost use Rattle.valuation.specs.IsinLines.{AreSummedBy, IsQuoteOf, IsQuoteOf-prop};
ghost use Rattle.valuation.specs.LineSums.{IsSumOf-prop};

use crate::basis::Basis;
use crate::isin_lines::IsinLines;
use crate::isin_sums::IsinSums;
use crate::line_sums::LineSums;
use crate::per_side::PerSide;
use crate::quote::Quote;
use crate::row_charges::{charged_titles, worse_of};
use crate::scope::whole_scope;
use crate::tally::Tally;
use account::block_name::BlockName;
use account::row::Row;
use account::scenario::Scenario;
use account::scope::Scope;
use netting::Position;
use quantities::amount::{SignedCents, initial_margin, market_value};
use quantities::range::Titles;

/// Lines of one ISIN with what their rows are worked from: the quote, where some of them have
/// titles, and the sums for each row.
#[derive(Drop)]
pub(crate) struct SummedLines<'b, 'a, B: Basis> {
    pub lines: &'b IsinLines<'a, B>,
    pub quote: Option<Quote>,
    pub sums: IsinSums,
    ghost quoted: { IsQuoteOf lines.now quote } by { IsQuoteOf-prop lines.now quote },
    ghost summed: { AreSummedBy lines.now sums } by { Π_prop (λ scope. IsSumOf-prop _ _ _) },
}

impl<'b, 'a, B: Basis> SummedLines<'b, 'a, B> {
    ghost use Rattle.std.specs.Option.{option_to_list};
    ghost use Rattle.account.specs.Charges.{titles_bought, titles_sold};
    ghost use Rattle.account.specs.Lines.{is_same_block};
    ghost use Rattle.account.specs.declared.block_name.BlockName.TheVariants.{Trade as trade, CashOnly as cash_only};
    ghost use Rattle.account.specs.Rows.{block_of};
    ghost use Rattle.valuation.specs.IsinLines.{scope_lines, line_count, block_count, has_lines};
    ghost use Rattle.valuation.specs.IsinLines.{IsScopeSum, charged_cash, credited_cash};
    ghost use Rattle.valuation.specs.IsinLines.{isin_quote};
    ghost use Rattle.valuation.specs.IsinLines.{scope_row, worked_row, row_if_any, all_rows};
    ghost use Rattle.valuation.specs.PerSide.{PerSideWithin};
    ghost use Rattle.valuation.specs.Quotes.{quote_parts};
    ghost use Rattle.valuation.specs.RowCharges.{RowWithin};
    ghost use Rattle.valuation.specs.Spaces.{RowsWithin, HasSpaceFor};
    ghost use Rattle.valuation.specs.Tallies.{AddsRows};

    // The sums of the lines that a row is worked on.
    fn scope_sums(&self, scope: Scope) -> LineSums
        ensures { IsScopeSum self.now.lines.now scope result }
    {
        self.sums.scope_sums(scope)
    }

    // The titles bought and sold of the lines that a row is worked on.
    fn scope_titles(&self, scope: Scope) -> Position
        ensures bought { let lines = self.now.lines.now in
            result.bought.count ≡ titles_bought (scope_lines lines scope) }
        ensures sold { let lines = self.now.lines.now in
            result.sold.count ≡ titles_sold (scope_lines lines scope) }
    {
        let titles = self.scope_sums(scope).titles;
        Position {
            bought: Titles {
                count: titles.bought as u32,
            },
            sold: Titles {
                count: titles.sold as u32,
            },
        }
    }

    // The cash of the lines that a row is worked on: charged where bought, credited where sold.
    fn scope_cash(&self, scope: Scope) -> PerSide
        ensures bought { result.bought ≡ charged_cash self.now.lines.now scope }
        ensures sold { result.sold ≡ credited_cash self.now.lines.now scope }
        ensures within { PerSideWithin (length (scope_lines self.now.lines.now scope)) result }
    {
        self.scope_sums(scope).cash
    }

    // The quote by which a row of titles is worked, where its block has lines.
    fn scope_quote(&self, scope: Scope) -> Quote
        requires titled { IsFalse (is_same_block (block_of scope) cash_only) }
        requires some { 1 ≤ block_count self.now.lines.now (block_of scope) }
        ensures { Ok (quote_parts result) ≡ isin_quote self.now.lines.now }
    {
        self.quote.unwrap()
    }

    // A row, where its block has lines.
    // That its block has lines is asked of the caller: it holds of one block at a time.
    fn scope_row(&self, scope: Scope) -> Row
        requires titled { IsFalse (is_same_block (block_of scope) cash_only) }
        requires some { 1 ≤ block_count self.now.lines.now (block_of scope) }
        ensures is { result ≡ scope_row self.now.lines.now scope }
        ensures within { RowWithin (block_count self.now.lines.now (block_of scope)) result }
    {
        let quote = self.scope_quote(scope);
        let position = self.scope_titles(scope);
        let cash = self.scope_cash(scope);
        let charged = charged_titles(self.lines.basis, position, scope);
        let value = market_value(quote.price, position.bought, position.sold);
        Row {
            isin: self.lines.isin,
            scope,
            initial_margin: initial_margin(charged, quote.price, quote.percentage),
            variation_margin: value - cash.bought as SignedCents + cash.sold as SignedCents,
        }
    }

    // The row of the trades in a scenario.
    fn scenario_row(&self, scenario: Scenario) -> Row
        requires { 1 ≤ block_count self.now.lines.now trade }
        ensures is { result ≡ scope_row self.now.lines.now (Scope.Trades scenario) }
        ensures within { RowWithin (block_count self.now.lines.now trade) result }
    {
        self.scope_row(Scope::Trades(scenario))
    }

    // The row of the trades, where there are some: the worst of the three scenarios.
    fn trades_row(&self) -> Row
        requires { 1 ≤ block_count self.now.lines.now trade }
        ensures is { result ≡ worked_row self.now.lines.now trade }
        ensures within { RowWithin (block_count self.now.lines.now trade) result }
    {
        let all = self.scenario_row(Scenario::AllTrades);
        let without_today = self.scenario_row(Scenario::WithoutToday);
        let after_next = self.scenario_row(Scenario::AfterNext);
        worse_of(worse_of(all, without_today), after_next)
    }

    // The row of the cash-only lines.
    fn cash_only_row(&self) -> Row
        ensures is { result ≡ worked_row self.now.lines.now cash_only }
        ensures within { RowWithin (block_count self.now.lines.now cash_only) result }
    {
        let scope = Scope::CashOnlyLines;
        let cash = self.scope_cash(scope);
        Row {
            isin: self.lines.isin,
            scope,
            initial_margin: cash.bought.saturating_sub(cash.sold),
            variation_margin: 0,
        }
    }

    // The row of a block that has lines.
    fn worked_row(&self, block: BlockName) -> Row
        requires { 1 ≤ block_count self.now.lines.now block }
        ensures is { result ≡ worked_row self.now.lines.now block }
        ensures within { RowWithin (block_count self.now.lines.now block) result }
    {
        // A match on the four blocks, of which each has a row of its own block by definition.
        match block {
            BlockName::Trade => self.trades_row(),
            BlockName::Failed => self.scope_row(Scope::FailedLines),
            BlockName::Held => self.scope_row(Scope::HeldLines),
            BlockName::CashOnly => self.cash_only_row(),
        }
    }

    // Whether a block has lines.
    fn has_lines(&self, block: BlockName) -> bool
        ensures { result ≡ has_lines self.now.lines.now block }
    {
        self.scope_sums(whole_scope(block)).lines > 0
    }

    // The row of a block, where it has lines.
    fn row_if_any(&self, block: BlockName) -> Option<Row>
        ensures is { option_to_list result ≡ row_if_any self.now.lines.now block }
        ensures within { IfSome result (RowWithin (block_count self.now.lines.now block)) }
    {
        // Branches and not `then`: worked_row asks that there are lines, which the branch knows.
        if self.has_lines(block) {
            Some(self.worked_row(block))
        } else {
            None
        }
    }

    /// Adds the rows of the blocks: trades, failed, held, cash-only.
    pub(crate) fn add_to(&self, tally: &mut Tally<'_>)
        requires { HasSpaceFor (line_count self.now.lines.now) tally.old }
        ensures tallied { AddsRows (all_rows self.now.lines.now) tally.old tally.new }
        ensures within { RowsWithin (line_count self.now.lines.now) (all_rows self.now.lines.now) }
    {
        tally.add_if_any(self.row_if_any(BlockName::Trade));
        tally.add_if_any(self.row_if_any(BlockName::Failed));
        tally.add_if_any(self.row_if_any(BlockName::Held));
        tally.add_if_any(self.row_if_any(BlockName::CashOnly));
    }
}
