//! The statement of an account whose sheets are read.
ghost use Rattle.std.specs.Prelude.{◌≤◌, length};
ghost use Rattle.book.specs.Books.{lines_of, room_for};
ghost use Rattle.run.specs.Days.{account_of_book};
ghost use Rattle.run.specs.Runs.{account_outcome};
ghost use Rattle.run.specs.Answers.{WritesText, StatesAccount};
ghost use Rattle.valuation.specs.Statements.{States};

use crate::keepers::day::KeptDay;
use crate::refusal::RunRefusal;
use crate::run::MOST_LINES;
use account::line_refusal::LineRefusal;
use account::margin::Margin;
use account::row::Row;
use account::scenario::Scenario;
use account::scope::Scope;
use book::book::Book;
use curve::point::points::Points;
use curve::sloping::SlopingCurve;
use curve::step::StepCurve;
use netting::{Gross, Net};
use quantities::isin::Isin;
use rows::curve_shape::CurveShape;
use rows::mode::Mode;
use statement::text::write_statement;
use valuation::stated_margin::StatedMargin;

// How many lines most accounts have at most.
const FEW_LINES: usize = 64;

// What a place for a row holds before one is written there.
const NO_ROW: Row = Row {
    isin: Isin { bytes: [0; 12] },
    scope: Scope::Trades(Scenario::AllTrades),
    initial_margin: 0,
    variation_margin: 0,
};

// The margin of a book by the curve and the rule of its day, with the rows of its statement.
fn margin_by_day(
    day: &KeptDay,
    points: &Points<'_>,
    book: &Book<'_, '_, '_>,
    rows: &mut [Row],
) -> Result<StatedMargin, LineRefusal>
    ensures { let account = account_of_book day.now points.now.records book.now in
        States account.setting account.standing rows.old rows.new result }
{
    let step = StepCurve { points };
    let sloping = SlopingCurve { points };
    match (day.curve, day.mode) {
        (CurveShape::Step, Mode::Net) => book.statement(&step, &Net, rows),
        (CurveShape::Step, Mode::Gross) => book.statement(&step, &Gross, rows),
        (CurveShape::Sloping, Mode::Net) => book.statement(&sloping, &Net, rows),
        (CurveShape::Sloping, Mode::Gross) => book.statement(&sloping, &Gross, rows),
    }
}

// The margin of a book by its day, and the rows of its statement.
fn stated_rows<'r>(
    day: &KeptDay,
    points: &Points<'_>,
    book: &Book<'_, '_, '_>,
    places: &'r mut [Row],
) -> Result<(Margin, &'r [Row]), LineRefusal>
    requires { length (lines_of book.now) ≤ length places.old }
    ensures { StatesAccount (account_of_book day.now points.now.records book.now) result }
{
    let given = margin_by_day(day, points, book, places)?;
    Ok((given.margin, &places[..given.rows]))
}

// Writes the statement of a book that has at most as many lines as there are places.
fn state_within<const PLACES: usize>(
    day: &KeptDay,
    points: &Points<'_>,
    book: &Book<'_, '_, '_>,
    buffer: &mut [u8],
) -> Result<usize, RunRefusal>
    requires { (length (lines_of book.now) ≤ PLACES) × (PLACES ≤ 1024) }
    ensures { let account = account_of_book day.now points.now.records book.now in
        WritesText (account_outcome (length buffer.old) account) result buffer.old buffer.new }
{
    let mut places = [NO_ROW; PLACES];
    // an account has at most as many rows as lines
    let places = &mut places[..book.lines().len()];
    let (margin, rows) = stated_rows(day, points, book, places).map_err(RunRefusal::of_margin)?;
    write_statement(rows, margin, buffer).map_err(RunRefusal::whole)
}

/// Writes the statement of a book into a buffer, and answers its length.
pub(crate) fn state(
    day: &KeptDay,
    points: &Points<'_>,
    book: &Book<'_, '_, '_>,
    buffer: &mut [u8],
) -> Result<usize, RunRefusal>
    requires { room_for book.now ≤ 1024 }
    ensures { let account = account_of_book day.now points.now.records book.now in
        WritesText (account_outcome (length buffer.old) account) result buffer.old buffer.new }
{
    // places are filled before they are used, so a small account has few of them
    if book.lines().len() <= FEW_LINES {
        state_within::<FEW_LINES>(day, points, book, buffer)
    } else {
        state_within::<MOST_LINES>(day, points, book, buffer)
    }
}
