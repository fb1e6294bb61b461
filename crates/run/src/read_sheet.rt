//! A sheet, read to its end.
ghost use Rattle.std.specs.Prelude.{◌≡◌, Ok};
ghost use Rattle.run.specs.Refusals.{GivesOutcome};
ghost use Rattle.run.specs.KeptSheets.{kept_rest, kept_sheet, kept_at_trailer};

use crate::keeper::Keeper;
use crate::refusal::RunRefusal;
use sheet::input::Input;
use sheet::kind::RowKind;
use sheet::reading::Reading;

/// How many rows a sheet had, and what is left behind its trailer.
#[derive(Drop)]
pub struct ReadSheet<'a> {
    pub rows: usize,
    pub left: Input<'a>,
}

// Keeps the rows that are left, up to the trailer.
fn keep_rows<'a, K: RowKind, T: Keeper<K::Row>>(
    reading: &mut Reading<'a, K>,
    keeper: &mut T,
) -> Result<(), RunRefusal>
    ensures frame { T.frame keeper.new ≡ T.frame keeper.old }
    ensures answer { GivesOutcome
        (kept_rest K.kind T.keeping reading.old.left.lines reading.old (T.kept keeper.old))
        (λ _. kept_at_trailer (T.kept keeper.new) reading.new) result }
{
    loop {
        let line = reading.line();
        match reading.row()? {
            Some(row) => keeper
                .keep(row)
                .map_err(|refused| RunRefusal::of_row(line, refused))?,
            None => return Ok(()),
        }
    }
}

/// Reads a sheet to its end and keeps its rows.
pub(crate) fn keep_sheet<'a, K: RowKind, T: Keeper<K::Row>>(
    input: &Input<'a>,
    keeper: &mut T,
) -> Result<ReadSheet<'a>, RunRefusal>
    ensures frame { T.frame keeper.new ≡ T.frame keeper.old }
    ensures answer { GivesOutcome (kept_sheet K.kind T.keeping (T.kept keeper.old) input.now)
        (λ s. Ok (record { kept = T.kept keeper.new; rows = s.rows; left = s.left })) result }
{
    let mut reading = input.open::<K>()?;
    match keep_rows(&mut reading, keeper) {
        Ok(()) => {
            let rows = reading.rows();
            let left = reading.close()?;
            Ok(ReadSheet { rows, left })
        }
        Err(refusal) => {
            reading.give_up();
            Err(refusal)
        }
    }
}
