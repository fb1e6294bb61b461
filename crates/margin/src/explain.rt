//! A refusal in words, for whoever has to correct the sheets.
use crate::spot::{Sheet, Spot, cell_at, count_cells, count_named};
use crate::words::{misfit, turned_away};
use quantities::refusal::Refusal;
use run::refusal::{Place, RunRefusal};
use run::run::MOST_BYTES;
use sheet::cells::MOST_COLUMNS;
use std::fmt;

/// A refusal beside the sheets that it is about.
#[derive(Clone, Copy)]
pub struct Explanation<'a> {
    pub sheets: &'a [u8],
    pub refusal: RunRefusal,
}

// The first needed name that does not stand exactly once, and how often it stands.
fn misnamed(spot: &Spot<'_>) -> Option<(&'static [u8], usize)> {
    let names = spot.cells();
    spot.sheet
        .needed()
        .iter()
        .map(|name| (*name, count_named(names, name)))
        .find(|(_, times)| *times != 1)
}

// A cell as text; a question mark for a cell whose bytes are no text.
fn shown(cell: &[u8]) -> &str {
    str::from_utf8(cell).unwrap_or("?")
}

// What should stand at a spot whose line is missing or refused as a whole.
#[derive(Clone, Copy)]
struct Awaited<'a> {
    spot: &'a Spot<'a>,
    refusal: Refusal,
}

impl<'a> fmt::Display for Awaited<'a> {
    fn fmt<W: fmt::Write>(&self, f: &mut fmt::Formatter<W>) -> fmt::Result {
        match self.refusal {
            Refusal::Mark => {
                let mark = self.spot.sheet.mark();
                let mark = shown(&mark);
                write!(f, "{mark} and a version from 1 to 255, as {mark};1")
            }
            Refusal::Columns => f.write_str("the names of its columns"),
            _ => {
                let rows = self.spot.rows;
                write!(f, "END;{rows}, the count of the rows before it")
            }
        }
    }
}

// Why a line is refused as a whole.
#[derive(Clone, Copy)]
struct Fault<'a> {
    spot: &'a Spot<'a>,
    refusal: Refusal,
}

impl<'a> Fault<'a> {
    fn write_names<W: fmt::Write>(&self, f: &mut fmt::Formatter<W>) -> fmt::Result {
        let names = count_cells(self.spot.cells());
        match misnamed(self.spot) {
            _ if names > MOST_COLUMNS => {
                write!(f, ": it has {names} names, and {MOST_COLUMNS} are the most")
            }
            Some((name, 0)) => {
                let name = shown(name);
                write!(f, ": the name {name} is missing")
            }
            Some((name, times)) => {
                let name = shown(name);
                write!(f, ": the name {name} stands {times} times")
            }
            None => f.write_str(": a name is missing"),
        }
    }

    fn write_cell_count<W: fmt::Write>(&self, f: &mut fmt::Formatter<W>) -> fmt::Result {
        let cells = count_cells(self.spot.cells());
        let names = count_cells(self.spot.names);
        write!(
            f,
            ": the count of its cells is {cells}, that of the names {names}"
        )
    }
}

impl<'a> fmt::Display for Fault<'a> {
    fn fmt<W: fmt::Write>(&self, f: &mut fmt::Formatter<W>) -> fmt::Result {
        let Fault { spot, refusal } = *self;
        let rows = spot.rows;
        let awaited = Awaited { spot, refusal };
        match (refusal, spot.text) {
            (_, []) => write!(f, " is missing: it should be {awaited}"),
            (Refusal::CellCount, _) => self.write_cell_count(f),
            (_, [.., b'\r', b'\n']) => f.write_str(" ends with a carriage return"),
            (Refusal::Columns, [.., b'\n']) => self.write_names(f),
            (Refusal::Trailer, [.., b'\n']) if spot.sheet == Sheet::Day && rows != 1 => {
                write!(f, ": a day has just one row, and there are {rows}")
            }
            (_, [.., b'\n']) => write!(f, ": it should be {awaited}"),
            _ => f.write_str(" does not end with a line feed"),
        }
    }
}

impl<'a> Explanation<'a> {
    fn write_cell<W: fmt::Write>(
        &self,
        f: &mut fmt::Formatter<W>,
        spot: &Spot<'_>,
        cell: usize,
    ) -> fmt::Result {
        let name = cell_at(spot.names, cell);
        let misfit = misfit(name, spot.under(b"BLOCK"));
        let name = shown(name);
        write!(f, "{spot}, cell {cell} ({name}): {misfit}")
    }

    fn write_line<W: fmt::Write>(
        &self,
        f: &mut fmt::Formatter<W>,
        line: usize,
        cell: usize,
    ) -> fmt::Result {
        match Spot::at(self.sheets, line) {
            Some(spot) if cell > 0 => self.write_cell(f, &spot, cell),
            Some(spot) => {
                let fault = Fault {
                    spot: &spot,
                    refusal: self.refusal.refusal,
                };
                write!(f, "{spot}{fault}")
            }
            None => write!(f, "line {line}: nothing may follow the fifth sheet"),
        }
    }

    fn write_row<W: fmt::Write>(
        &self,
        f: &mut fmt::Formatter<W>,
        line: usize,
        reference: u32,
    ) -> fmt::Result {
        let refusal = self.refusal.refusal;
        match Spot::at(self.sheets, line) {
            Some(spot) => {
                let why = turned_away(&spot, refusal);
                match reference {
                    0 => write!(f, "{spot}: {why}"),
                    _ => write!(f, "{spot}, reference {reference}: {why}"),
                }
            }
            None => write!(f, "line {line}: {refusal}"),
        }
    }

    fn write_position<W: fmt::Write>(
        &self,
        f: &mut fmt::Formatter<W>,
        reference: u32,
    ) -> fmt::Result {
        let refusal = self.refusal.refusal;
        let Some(spot) = Spot::of_reference(self.sheets, reference) else {
            return write!(f, "reference {reference}: {refusal}");
        };
        let isin = shown(spot.under(b"ISIN"));
        write!(f, "{spot}, reference {reference}: ")?;
        match refusal {
            Refusal::NoPrice => write!(f, "the ISIN {isin} has no price"),
            Refusal::NoPercentage => write!(f, "the tranche of the ISIN {isin} has no percentage"),
            _ => f.write_str("no point of the curve is at its term or beyond"),
        }
    }
}

impl<'a> fmt::Display for Explanation<'a> {
    fn fmt<W: fmt::Write>(&self, f: &mut fmt::Formatter<W>) -> fmt::Result {
        match self.refusal.place {
            Place::Whole if self.sheets.len() > MOST_BYTES => {
                f.write_str("the run has more than 65,536 bytes")
            }
            Place::Whole => f.write_str("the statement is longer than the memory for it"),
            Place::Sheet { line, cell } => self.write_line(f, line, cell),
            Place::Book { line, reference } => self.write_row(f, line, reference),
            Place::Margin { reference } => self.write_position(f, reference),
        }
    }
}
