//! Why a run is refused, and where.
ghost use Rattle.std.specs.Prelude.{◌≡◌, Some};
ghost use Rattle.run.specs.Refusals.{refusal_text, refusal_of_run, refusal_of_sheet, refusal_of_book, refusal_of_margin, row_refusal, placed_sheet_refusal, placed_refusal};
ghost use Rattle.quantities.specs.Refusals.{number};

use account::line_refusal::LineRefusal;
use quantities::refusal::Refusal;
use sheet::refusal::SheetRefusal;
use std::error::Error;
use std::fmt;

/// What a refusal is about.
#[derive(Clone, Copy, PartialEq, Eq, Debug)]
pub enum Place {
    /// The input or the statement as a whole.
    Whole,
    /// A line of a sheet, counted from 1 over the whole input, and its cell, counted from 1; 0
    /// where it is about no one cell.
    Sheet { line: usize, cell: usize },
    /// A row that the book does not take: its line, and the reference of a position, 0 of any other
    /// row.
    Book { line: usize, reference: u32 },
    /// The line of a reference, which has no margin.
    Margin { reference: u32 },
}

/// A refusal of a run.
#[derive(Clone, Copy, PartialEq, Eq, Debug)]
pub struct RunRefusal {
    pub refusal: Refusal,
    pub place: Place,
}

impl RunRefusal {
    /// What is refused of the input or the statement as a whole.
    pub fn whole(refusal: Refusal) -> RunRefusal
        ensures { placed_refusal result ≡ refusal_of_run (number refusal) }
    {
        RunRefusal {
            refusal,
            place: Place::Whole,
        }
    }

    /// What is refused of a line of a sheet, and of no one cell.
    pub fn of_sheet(refusal: Refusal, line: usize) -> RunRefusal
        ensures { placed_refusal result ≡ refusal_of_sheet (number refusal) line 0 }
    {
        RunRefusal {
            refusal,
            place: Place::Sheet { line, cell: 0 },
        }
    }

    /// A row on a line that is turned away.
    pub fn of_row(line: usize, turned: LineRefusal) -> RunRefusal
        ensures { let row = row_refusal turned in
            placed_refusal result ≡ refusal_of_book row.number line row.reference }
    {
        RunRefusal {
            refusal: turned.refusal,
            place: Place::Book {
                line,
                reference: turned.reference,
            },
        }
    }

    /// A line that has no margin.
    pub fn of_margin(unmargined: LineRefusal) -> RunRefusal
        ensures { let line = row_refusal unmargined in
            placed_refusal result ≡ refusal_of_margin line.number line.reference }
    {
        RunRefusal {
            refusal: unmargined.refusal,
            place: Place::Margin {
                reference: unmargined.reference,
            },
        }
    }

    /// The number of the refusal.
    pub fn number(&self) -> u8
        ensures { result ≡ (placed_refusal self.now).number }
    {
        self.refusal.number()
    }

    /// The layer that refuses: 0 the run, 1 its sheets, 2 the book, 3 the margin.
    pub fn layer(&self) -> u8
        ensures { result ≡ (placed_refusal self.now).layer }
    {
        match self.place {
            Place::Whole => 0,
            Place::Sheet { .. } => 1,
            Place::Book { .. } => 2,
            Place::Margin { .. } => 3,
        }
    }

    /// The line that is refused, 0 where it is about no one line.
    pub fn line(&self) -> usize
        ensures { result ≡ (placed_refusal self.now).line }
    {
        match self.place {
            Place::Sheet { line, .. } | Place::Book { line, .. } => line,
            Place::Whole | Place::Margin { .. } => 0,
        }
    }

    /// The cell that is refused, 0 where it is about no one cell.
    pub fn cell(&self) -> usize
        ensures { result ≡ (placed_refusal self.now).cell }
    {
        match self.place {
            Place::Sheet { cell, .. } => cell,
            Place::Whole | Place::Book { .. } | Place::Margin { .. } => 0,
        }
    }

    /// The reference that is refused, 0 where it is about no one line of the account.
    pub fn reference(&self) -> u32
        ensures { result ≡ (placed_refusal self.now).reference }
    {
        match self.place {
            Place::Book { reference, .. } | Place::Margin { reference } => reference,
            Place::Whole | Place::Sheet { .. } => 0,
        }
    }
}

impl From<SheetRefusal> for RunRefusal {
    ghost from_gives = { λ sheet run. placed_refusal run ≡ placed_sheet_refusal sheet };

    fn from(sheet: SheetRefusal) -> RunRefusal {
        RunRefusal {
            refusal: sheet.refusal,
            place: Place::Sheet {
                line: sheet.line,
                cell: sheet.cell,
            },
        }
    }
}

/// The refusal as a line of numbers: its own, the layer, line, cell and reference.
impl fmt::Display for RunRefusal {
    ghost output = { λ r. Some (refusal_text (placed_refusal r)) };

    fn fmt<W: fmt::Write>(&self, f: &mut fmt::Formatter<W>) -> fmt::Result {
        let number = self.number();
        let layer = self.layer();
        let line = self.line();
        let cell = self.cell();
        let reference = self.reference();
        write!(f, "REFUSED;{number};{layer};{line};{cell};{reference}")
    }
}

impl Error for RunRefusal {}
