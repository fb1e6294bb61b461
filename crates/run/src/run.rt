//! A run over the bytes of its five sheets.
ghost use Rattle.std.specs.Prelude.{◌≤◌, length, take, ◌↔◌, IsOk, IfOk, IfErr};
ghost use Rattle.run.specs.Accepted.{NothingWrong, TooLongOnly};
ghost use Rattle.run.specs.Runs.{sheets_outcome, run};
ghost use Rattle.run.specs.Laws.{PromisedStatement};
ghost use Rattle.run.specs.Causes.{RefusedByCause};
ghost use Rattle.run.specs.Refusals.{placed_refusal};
ghost use Rattle.run.specs.Answers.{WritesText};

use crate::keepers::day::DayKeeper;
use crate::read_sheet::keep_sheet;
use crate::refusal::RunRefusal;
use crate::state::state;
use account::line::Line;
use book::book::Book;
use curve::point::Point;
use curve::point::points::Points;
use market::market::Market;
use market::percentage::Percentage;
use market::price::Price;
use quantities::refusal::Refusal;
use register::order::Place;
use rows::day::DayRows;
use rows::percentage::PercentageRows;
use rows::point::PointRows;
use rows::position::PositionRows;
use rows::price::PriceRows;
use sheet::input::Input;

/// How many bytes the sheets of a run have at most.
pub const MOST_BYTES: usize = 65_536;

/// How many bytes their statement has at most: a buffer of so many has room for every one.
pub const MOST_STATEMENT: usize = 65_536;

/// How many prices it has at most.
pub const MOST_PRICES: usize = 256;

/// How many lines an account has at most.
pub const MOST_LINES: usize = 1_024;

// Reads the five sheets, and writes the statement of their account.
fn work(sheets: &[u8], buffer: &mut [u8]) -> Result<usize, RunRefusal>
    ensures { WritesText (sheets_outcome sheets.now (length buffer.old)) result
        buffer.old buffer.new }
{
    let mut day = DayKeeper { day: None };
    let mut prices = [Price::default(); MOST_PRICES];
    let mut percentages = [Percentage::default(); 6];
    let mut points = [Point::default(); Points::MOST];
    let mut lines = [Line::default(); MOST_LINES];
    let mut by_isin: [Place; MOST_LINES] = [0; MOST_LINES];

    let day_sheet = keep_sheet::<DayRows, DayKeeper>(&Input::new(sheets), &mut day)?;
    let day = day.one(&day_sheet)?;
    let mut market = Market::new(day.day, &mut prices, &mut percentages);
    let mut curve = Points::new(&mut points);
    let left = keep_sheet::<PercentageRows, Market<'_>>(&day_sheet.left, &mut market)?.left;
    let left = keep_sheet::<PointRows, Points<'_>>(&left, &mut curve)?.left;
    let left = keep_sheet::<PriceRows, Market<'_>>(&left, &mut market)?.left;
    let mut book = Book::new(&market, &mut lines, &mut by_isin);
    let left = keep_sheet::<PositionRows, Book<'_, '_, '_>>(&left, &mut book)?.left;
    if !left.is_empty() {
        return Err(RunRefusal::of_sheet(Refusal::Trailer, left.line()));
    }
    state(&day, &curve, &book, buffer)
}

/// Reads the five sheets of a run, and writes the statement of their account at the front of the
/// buffer: answers its length, or why there is none, and then the buffer keeps all that it held.
pub fn run(sheets: &[u8], buffer: &mut [u8]) -> Result<usize, RunRefusal>
    ensures answer { WritesText (run sheets.now (length buffer.old)) result buffer.old buffer.new }
    ensures accepted { IsOk result ↔ NothingWrong sheets.now (length buffer.old) }
    ensures bounded { IfOk result (λ len. (1 ≤ len) × (len ≤ MOST_STATEMENT)) }
    ensures too_long { IfErr result (λ refusal.
        TooLongOnly sheets.now (length buffer.old) (placed_refusal refusal)) }
    ensures promise { IfOk result (λ len. PromisedStatement sheets.now (take len buffer.new)) }
    ensures refusal { RefusedByCause sheets.now (length buffer.old) result }
{
    if sheets.len() > MOST_BYTES {
        return Err(RunRefusal::whole(Refusal::TooLong));
    }
    work(sheets, buffer)
}
