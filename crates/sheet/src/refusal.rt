//! Why a sheet is refused, and where.
ghost use Rattle.std.specs.Prelude.{◌≡◌};

use quantities::refusal::Refusal;

/// A refusal with the line that it is about, counted from 1 over the whole input,
/// and the cell, counted from 1, or 0 where it is about no one cell.
#[derive(Clone, Copy, PartialEq, Eq, Debug)]
pub struct SheetRefusal {
    pub refusal: Refusal,
    pub line: usize,
    pub cell: usize,
}

impl SheetRefusal {
    /// The refusal of a line that is about no one cell.
    pub(crate) fn of_line(refusal: Refusal, line: usize) -> SheetRefusal
        ensures { result ≡ record { refusal = refusal; line = line; cell = 0 } }
    {
        SheetRefusal {
            refusal,
            line,
            cell: 0,
        }
    }
}
