//! A sheet that is being read: closed or given up, and never let go.
ghost use Rattle.std.specs.Prelude.{◌≡◌, [], ◌∷◌, take};
ghost use Rattle.text.specs.Cells.{cells};
ghost use Rattle.sheet.specs.Sheets.{open_answer, row_of_cells, next_row, after_row, close_answer};

use crate::cells::{Cells, MOST_COLUMNS};
use crate::columns::Columns;
use crate::input::Input;
use crate::kind::RowKind;
use crate::lines::{counts, is_top, is_trailer};
use crate::refusal::SheetRefusal;
use crate::row::made;
use quantities::refusal::Refusal;
use std::marker::{Model, PhantomData};

/// A sheet of which the first line and the names are read.
// It has no `Drop`, so that a reading is never left open by mistake:
// only `close` and `give_up` end it.
pub struct Reading<'a, K: RowKind> {
    columns: Columns,
    rows: usize,
    left: Input<'a>,
    kind: PhantomData<K>,
}

impl<'a, K: RowKind> Model for Reading<'a, K> {
    ghost use Rattle.std.specs.Prelude.{take, ◌≤◌};
    ghost use Rattle.sheet.specs.Sheets.{OpenSheet};

    ghost Value = { OpenSheet };

    ghost view = { λ r. record {
      places = take K.COLUMNS r.columns.places;
      width = r.columns.width;
      rows = r.rows;
      left = r.left;
    } };

    ghost invariant = { λ r. r.rows ≤ r.left.line };
}

impl<'a> Input<'a> {
    /// Begins to read the sheet of a kind that comes next.
    pub fn open<K: RowKind>(&self) -> Result<Reading<'a, K>, SheetRefusal>
        ensures { result ≡ open_answer K.kind self.now }
    {
        let names = match self.next() {
            Some((top, names)) if is_top(top, K::MARK) => names,
            _ => return Err(SheetRefusal::of_line(Refusal::Mark, self.line())),
        };
        let refused = SheetRefusal::of_line(Refusal::Columns, names.line());
        let (line, left) = names.next().ok_or(refused)?;
        let columns = Columns::find::<K>(line).ok_or(refused)?;
        Ok(Reading {
            columns,
            rows: 0,
            left,
            kind: PhantomData,
        })
    }
}

impl<'a, K: RowKind> Reading<'a, K> {
    /// The number of the next line.
    pub fn line(&self) -> usize
        ensures { result ≡ self.now.left.line }
    {
        self.left.line()
    }

    /// How many rows are read.
    pub fn rows(&self) -> usize
        ensures { result ≡ self.now.rows }
    {
        self.rows
    }

    /// What the next line says, which is a row's.
    fn row_of(&self, line: &[u8]) -> Result<K::Row, SheetRefusal>
        requires { take 1 self.now.left.lines ≡ line.now ∷ [] }
        ensures { result ≡ row_of_cells K.kind self.now (cells line.now) }
    {
        let mut room = [0; MOST_COLUMNS];
        let places = &self.columns.places[..K::COLUMNS];
        match self.left.cell_ends(line, &mut room) {
            Some(count) if count == self.columns.width => made::<K>(
                &Cells::new(line, &room[..count], places),
                places,
                self.line(),
            ),
            _ => Err(SheetRefusal::of_line(Refusal::CellCount, self.line())),
        }
    }

    /// The next row; none at the trailer, and where no line is left.
    /// Then, and where a row is refused, the reading stays where it is.
    pub fn row(&mut self) -> Result<Option<K::Row>, SheetRefusal>
        ensures answer { result ≡ next_row K.kind self.old }
        ensures after { self.new ≡ after_row K.kind self.old }
    {
        match self.left.next() {
            Some((line, left)) if !is_trailer(line) => {
                let row = self.row_of(line)?;
                self.left = left;
                self.rows += 1;
                Ok(Some(row))
            }
            _ => Ok(None),
        }
    }

    /// Ends the reading at the trailer, which must count the rows, and answers what follows.
    pub fn close(self) -> Result<Input<'a>, SheetRefusal>
        ensures { result ≡ close_answer self.entry }
    {
        let Reading {
            columns: _,
            rows,
            left,
            kind: _,
        } = self;
        match left.next() {
            Some((trailer, after)) if counts(trailer, rows as u64) => Ok(after),
            _ => Err(SheetRefusal::of_line(Refusal::Trailer, left.line())),
        }
    }

    /// Ends the reading wherever it stands.
    pub fn give_up(self) {
        let Reading {
            columns: _,
            rows: _,
            left: _,
            kind: _,
        } = self;
    }
}
