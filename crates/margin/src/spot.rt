//! Where a line of a run stands.
use rows::day::DayRows;
use rows::percentage::PercentageRows;
use rows::point::PointRows;
use rows::position::PositionRows;
use rows::price::PriceRows;
use sheet::kind::RowKind;
use std::{fmt, iter};
use text::number::number;

/// The five sheets of a run, in their order.
#[derive(Clone, Copy, PartialEq, Eq)]
pub enum Sheet {
    Day,
    Percentages,
    Curve,
    Prices,
    Positions,
}

impl Sheet {
    fn next(self) -> Option<Sheet> {
        match self {
            Sheet::Day => Some(Sheet::Percentages),
            Sheet::Percentages => Some(Sheet::Curve),
            Sheet::Curve => Some(Sheet::Prices),
            Sheet::Prices => Some(Sheet::Positions),
            Sheet::Positions => None,
        }
    }

    /// The mark of its first line.
    pub(crate) fn mark(self) -> [u8; 3] {
        match self {
            Sheet::Day => DayRows::MARK,
            Sheet::Percentages => PercentageRows::MARK,
            Sheet::Curve => PointRows::MARK,
            Sheet::Prices => PriceRows::MARK,
            Sheet::Positions => PositionRows::MARK,
        }
    }

    /// The names that its second line needs.
    pub(crate) fn needed(self) -> &'static [&'static [u8]] {
        match self {
            Sheet::Day => DayRows::names(),
            Sheet::Percentages => PercentageRows::names(),
            Sheet::Curve => PointRows::names(),
            Sheet::Prices => PriceRows::names(),
            Sheet::Positions => PositionRows::names(),
        }
    }
}

/// The word for its lines, as in `price line 16`.
impl fmt::Display for Sheet {
    fn fmt<W: fmt::Write>(&self, f: &mut fmt::Formatter<W>) -> fmt::Result {
        f.write_str(match self {
            Sheet::Day => "day",
            Sheet::Percentages => "percentage",
            Sheet::Curve => "curve",
            Sheet::Prices => "price",
            Sheet::Positions => "position",
        })
    }
}

// What the next line of a sheet is.
#[derive(Clone, Copy)]
enum Part {
    Mark,
    Names,
    Rows,
}

/// A line of a run: its sheet, the names of the columns there, and the count of the rows before it.
#[derive(Clone, Copy)]
pub struct Spot<'a> {
    /// Its number, counted from 1 over the whole run.
    pub line: usize,
    pub sheet: Sheet,
    pub names: &'a [u8],
    pub rows: usize,
    /// Its text with the line feed; empty behind the last line.
    pub text: &'a [u8],
    part: Part,
}

fn without_feed(text: &[u8]) -> &[u8] {
    text.strip_suffix(b"\n").unwrap_or(text)
}

/// How many cells a line has.
pub(crate) fn count_cells(line: &[u8]) -> usize {
    line.split(|byte| *byte == b';').count()
}

/// How many cells of a line hold a name.
pub(crate) fn count_named(line: &[u8], name: &[u8]) -> usize {
    line.split(|byte| *byte == b';')
        .filter(|cell| *cell == name)
        .count()
}

/// The cell of a number, counted from 1; empty where there is none.
pub(crate) fn cell_at(line: &[u8], number: usize) -> &[u8] {
    let mut cells = line.split(|byte| *byte == b';');
    match number.checked_sub(1) {
        Some(skipped) => cells.nth(skipped).unwrap_or_default(),
        None => &[],
    }
}

impl<'a> Spot<'a> {
    // The first line of the sheet that begins at a line.
    fn top(sheet: Sheet, line: usize) -> Spot<'a> {
        Spot {
            line,
            sheet,
            names: &[],
            rows: 0,
            text: &[],
            part: Part::Mark,
        }
    }

    // The spot behind this one; none behind the fifth sheet.
    fn next(self) -> Option<Spot<'a>> {
        let line = self.line.saturating_add(1);
        let text = without_feed(self.text);
        match self.part {
            Part::Mark => Some(Spot {
                line,
                part: Part::Names,
                ..self
            }),
            Part::Names => Some(Spot {
                line,
                names: text,
                part: Part::Rows,
                ..self
            }),
            Part::Rows if cell_at(text, 1) == b"END".as_slice() => {
                Some(Spot::top(self.sheet.next()?, line))
            }
            Part::Rows => Some(Spot {
                line,
                rows: self.rows.saturating_add(1),
                ..self
            }),
        }
    }

    // The first line that is wanted, of those of the five sheets and the empty one behind them.
    fn find<F: Fn(&Spot<'a>) -> bool + Drop>(sheets: &'a [u8], wanted: F) -> Option<Spot<'a>>
        requires { F.IsAlwaysCallable wanted }
    {
        let lines = sheets.split_inclusive(|byte| *byte == b'\n');
        let mut spot = Spot::top(Sheet::Day, 1);
        for text in lines.chain(iter::once(b"".as_slice())) {
            spot.text = text;
            if wanted(&spot) {
                return Some(spot);
            }
            spot = spot.next()?;
        }
        None
    }

    /// The line of a number; none behind the fifth sheet.
    pub(crate) fn at(sheets: &'a [u8], line: usize) -> Option<Spot<'a>> {
        Spot::find(sheets, |spot| spot.line == line)
    }

    /// The position of a reference.
    pub(crate) fn of_reference(sheets: &'a [u8], reference: u32) -> Option<Spot<'a>> {
        let reference = u64::from(reference);
        Spot::find(sheets, |spot| {
            spot.sheet == Sheet::Positions
                && number(spot.under(b"REF"), reference, reference).is_some()
        })
    }

    /// Its cells, separated by semicolons.
    pub(crate) fn cells(&self) -> &'a [u8] {
        without_feed(self.text)
    }

    /// The cell under a name; empty where there is none.
    pub(crate) fn under(&self, name: &[u8]) -> &'a [u8] {
        let mut names = self.names.split(|byte| *byte == b';');
        match names.position(|column| column == name) {
            Some(place) => cell_at(self.cells(), place.saturating_add(1)),
            None => &[],
        }
    }
}

/// Its sheet and its number, as in `price line 16`.
impl<'a> fmt::Display for Spot<'a> {
    fn fmt<W: fmt::Write>(&self, f: &mut fmt::Formatter<W>) -> fmt::Result {
        let sheet = self.sheet;
        let line = self.line;
        write!(f, "{sheet} line {line}")
    }
}
