//! The columns that a sheet's kind needs, found by their names.
ghost use Rattle.std.specs.Prelude.{◌≡◌, ◌<◌, ◌≤◌, length, take, IsFalse, IfSome, MatchOption};
ghost use Rattle.text.specs.Cells.{cells};
ghost use Rattle.sheet.specs.Kinds.{cell_at};
ghost use Rattle.sheet.specs.Sheets.{are_columns};
ghost use Rattle.sheet.specs.Columns.{texts, one_place, PlacesIfNamed, HasColumns};

use crate::cells::{MOST_COLUMNS, split};
use crate::kind::RowKind;

/// The place of the one cell that is a name; none where no cell is, or more than one.
fn one_place(name: &[u8], names: &[&[u8]]) -> Option<usize>
    ensures is { result ≡ one_place name.now (texts names.now) }
    ensures within { IfSome result (λ place. place < length names.now) }
{
    let mut found: Option<usize> = None;
    for (place, cell) in names.iter().enumerate() {
        match found {
            _ if name != *cell => {}
            None => found = Some(place),
            Some(_) => return None,
        }
    }
    found
}

/// The name of a column that a kind needs; empty where it has no such column.
fn name<K: RowKind>(column: usize) -> &'static [u8]
    ensures { result.now ≡ cell_at K.kind.needed column }
{
    K::names().get(column).copied().unwrap_or_default()
}

/// The place of each column that a kind needs; none where a needed name stands not once.
fn places<K: RowKind>(names: &[&[u8]]) -> Option<[u8; MOST_COLUMNS]>
    requires { length names.now ≤ 32 }
    ensures { PlacesIfNamed K.kind.needed (texts names.now) K.COLUMNS result }
{
    let mut places = [0; MOST_COLUMNS];
    for column in 0..K::COLUMNS {
        places[column] = one_place(name::<K>(column), names)? as u8;
    }
    Some(places)
}

/// Where the columns stand that a sheet's kind needs.
#[derive(Drop)]
pub(crate) struct Columns {
    /// Their places in the order of the kind, counted from 0; what is behind them does not matter.
    pub(crate) places: [u8; MOST_COLUMNS],
    /// How many columns the sheet has.
    pub(crate) width: usize,
    ghost few: { width ≤ 32 },
}

impl Columns {
    /// The columns that a line names;
    /// none where a needed one is absent or named twice, or where there are too many.
    pub(crate) fn find<K: RowKind>(line: &[u8]) -> Option<Columns>
        ensures { MatchOption result (IsFalse (are_columns K.kind.needed (cells line.now)))
            (λ c. HasColumns K.kind.needed (cells line.now) (take K.COLUMNS c.places) c.width) }
    {
        let mut room: [&[u8]; MOST_COLUMNS] = [&[]; MOST_COLUMNS];
        let names = split(line, &mut room)?;
        let places = places::<K>(names)?;
        Some(Columns {
            places,
            width: names.len(),
        })
    }
}
