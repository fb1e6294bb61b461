//! The cells of a row, by the columns that its kind needs.
ghost use Rattle.std.specs.Prelude.{◌≡◌, ◌<◌, ◌≤◌, length, take, MatchOption};
ghost use Rattle.text.specs.Cells.{cells};
ghost use Rattle.text.specs.Ends.{Ends};
ghost use Rattle.sheet.specs.Kinds.{cell_at};
ghost use Rattle.sheet.specs.Columns.{texts};
ghost use Rattle.sheet.specs.Sheets.{needed_cells};

use std::marker::Model;
use text::cell::next_cell;

/// How many columns a sheet has at most.
pub const MOST_COLUMNS: usize = 32;

/// The cells of a row under the names that its kind needs, in the order of the kind.
#[derive(Drop)]
pub struct Cells<'r, 'a> {
    line: &'a [u8],
    ends: &'r [usize],
    places: &'r [u8],
}

impl<'r, 'a> Model for Cells<'r, 'a> {
    ghost use Rattle.std.specs.Prelude.{List, ℕ};
    ghost use Rattle.text.specs.Cells.{cells};
    ghost use Rattle.text.specs.Ends.{Ends};
    ghost use Rattle.sheet.specs.Sheets.{needed_cells};

    ghost Value = { List (List ℕ) };

    ghost view = { λ row. needed_cells row.places.now (cells row.line.now) };

    ghost invariant = { λ row. Ends row.line.now row.ends.now };
}

impl<'r, 'a> Cells<'r, 'a> {
    /// The cells of a line that stand at the places.
    pub(crate) fn new(line: &'a [u8], ends: &'r [usize], places: &'r [u8]) -> Self
        requires { Ends line.now ends.now }
        ensures { result ≡ needed_cells places.now (cells line.now) }
    {
        Cells { line, ends, places }
    }

    /// The cell of a needed column; empty where the kind has no such column.
    pub fn cell(&self, column: usize) -> &'a [u8]
        ensures { result.now ≡ cell_at self.now column }
    {
        let Some(&place) = self.places.get(column) else {
            return &[];
        };
        let place = usize::from(place);
        let Some(&end) = self.ends.get(place) else {
            return &[];
        };
        let start = if place == 0 {
            0
        } else {
            self.ends[place - 1] + 1
        };
        &self.line[start..end]
    }
}

/// The cells of a line, put into the room; none where there are too many.
#[tactic(auto, using(crate::proofs::Split::one_more))]
pub(crate) fn split<'r, 'a>(
    line: &'a [u8],
    room: &'r mut [&'a [u8]; MOST_COLUMNS],
) -> Option<&'r [&'a [u8]]>
    ensures { MatchOption result (32 < length (cells line.now))
        (λ r. (length r.now ≤ 32) × (texts r.now ≡ cells line.now)) }
{
    let mut rest = line;
    for place in 0..MOST_COLUMNS {
        let (cell, after) = next_cell(rest);
        room[place] = cell;
        match after {
            Some(after) => rest = after,
            None => return Some(&room[..place + 1]),
        }
    }
    None
}
