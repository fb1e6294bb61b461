//! What keeps the rows of a sheet.
ghost use Rattle.std.specs.Prelude.{◌≡◌, Result};
ghost use Rattle.run.specs.Refusals.{RowRefusal};
ghost use Rattle.run.specs.KeptSheets.{Keeps};

use account::line_refusal::LineRefusal;

/// What takes the rows of a sheet one by one, and turns some away.
pub trait Keeper<R> {
    ghost Kept: { Type 0 };

    ghost kept: { Self → Kept };

    ghost keeping: { Kept → R → Result Kept RowRefusal };

    /// What no row changes.
    ghost Frame: { Type 0 };

    ghost frame: { Self → Frame };

    /// Keeps one more row; a row that is refused changes nothing.
    fn keep(&mut self, row: R) -> Result<(), LineRefusal>
        ensures frame { frame self.new ≡ frame self.old }
        ensures answer { let due = keeping (kept self.old) row in
            Keeps due (kept self.old) (kept self.new) result };
}
