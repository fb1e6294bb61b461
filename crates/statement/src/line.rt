//! The lines of a statement, put straight into its memory.
ghost use Rattle.std.specs.Prelude.{◌≡◌, ◌+◌, ◌≤◌, ◌++◌, length, codes};
ghost use Rattle.std.specs.Fmt.{decimal};
ghost use Rattle.account.specs.Rows.{block_of, scenario_of};
ghost use Rattle.statement.specs.Statements.{block_letter, row_text, total_text, end_text, Puts};

use crate::cell::{digits, put, put_number, put_signed, signed_len};
use account::margin::Margin;
use account::row::Row;
use account::scenario::Scenario;
use account::scope::Scope;

/// How long the line of a row is.
pub(crate) fn row_len(row: &Row) -> usize
    ensures size { result ≡ length (row_text row.now) }
    ensures bound { result ≤ 59 }
{
    let named = row.isin.bytes.len() + scope_cells(row.scope).len();
    named + digits(row.initial_margin) + signed_len(row.variation_margin) + 2
}

/// Puts the line of a row at a place, and answers where it ends.
pub(crate) fn put_row(memory: &mut [u8], at: usize, row: &Row) -> usize
    requires { at + length (row_text row.now) ≤ length memory.old }
    ensures { Puts at (row_text row.now) memory.old memory.new result }
{
    let at = put(memory, at, &row.isin.bytes);
    let at = put(memory, at, scope_cells(row.scope));
    let at = put_number(memory, at, row.initial_margin);
    let at = put(memory, at, b";");
    let at = put_signed(memory, at, row.variation_margin);
    put(memory, at, b"\n")
}

/// How long the line of a margin is.
pub(crate) fn total_len(margin: Margin) -> usize
    ensures size { result ≡ length (total_text margin.cents margin.rounded_amounts) }
    ensures bound { result ≤ 48 }
{
    8 + digits(margin.cents) + digits(margin.rounded_amounts.into())
}

/// Puts the line of a margin at a place.
pub(crate) fn put_total(memory: &mut [u8], at: usize, margin: Margin) -> usize
    requires { at + length (total_text margin.cents margin.rounded_amounts) ≤ length memory.old }
    ensures { let text = total_text margin.cents margin.rounded_amounts in
        Puts at text memory.old memory.new result }
{
    let at = put(memory, at, b"TOTAL;");
    let at = put_number(memory, at, margin.cents);
    let at = put(memory, at, b";");
    let at = put_number(memory, at, margin.rounded_amounts.into());
    put(memory, at, b"\n")
}

/// How long the last line is.
pub(crate) fn end_len(rows: usize) -> usize
    ensures size { result ≡ length (end_text rows) }
    ensures bound { result ≤ 25 }
{
    5 + digits(rows as u64)
}

/// Puts the last line, with the count of rows, at a place.
pub(crate) fn put_end(memory: &mut [u8], at: usize, rows: usize) -> usize
    requires { at + length (end_text rows) ≤ length memory.old }
    ensures { Puts at (end_text rows) memory.old memory.new result }
{
    let at = put(memory, at, b"END;");
    let at = put_number(memory, at, rows as u64);
    put(memory, at, b"\n")
}

// The cells of a row's block and scenario, with the ends of the cells around them.
#[tactic(auto, using(std::proofs::lemmas::Fmt::decimal_digit))]
fn scope_cells(scope: Scope) -> &'static [u8; 5]
    ensures cells { let block = codes ";" ++ block_letter (block_of scope) ++ codes ";" in
        result.now ≡ block ++ decimal (scenario_of scope) ++ codes ";" }
    ensures size { length result.now ≡ 5 }
{
    match scope {
        Scope::Trades(Scenario::AllTrades) => b";T;1;",
        Scope::Trades(Scenario::WithoutToday) => b";T;2;",
        Scope::Trades(Scenario::AfterNext) => b";T;3;",
        Scope::FailedLines => b";F;0;",
        Scope::HeldLines => b";H;0;",
        Scope::CashOnlyLines => b";C;0;",
    }
}
