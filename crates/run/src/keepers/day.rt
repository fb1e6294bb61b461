//! The one row of the day's sheet.
ghost use Rattle.std.specs.Prelude.{Ok, Option};
ghost use Rattle.std.specs.Option.{option_map};
ghost use Rattle.rows.specs.declared.day.DayRow.{DayRow};
ghost use Rattle.run.specs.Kept.{keep_day};
ghost use Rattle.run.specs.Days.{day_row};
ghost use Rattle.run.specs.Refusals.{GivesOutcome};
ghost use Rattle.run.specs.Runs.{one_day};

use crate::keeper::Keeper;
use crate::read_sheet::ReadSheet;
use crate::refusal::RunRefusal;
use account::line_refusal::LineRefusal;
use market::day::Day;
use quantities::refusal::Refusal;
use rows::curve_shape::CurveShape;
use rows::day::DayRow;
use rows::mode::Mode;

/// A day with the netting rule and the form of the curve that it names.
#[derive(Clone, Copy)]
pub struct KeptDay {
    pub day: Day,
    pub mode: Mode,
    pub curve: CurveShape,
}

/// What keeps the last row of the day's sheet.
#[derive(Clone, Copy)]
pub struct DayKeeper {
    pub day: Option<KeptDay>,
}

impl Keeper<DayRow> for DayKeeper {
    ghost Kept = { Option DayRow };

    ghost kept = { λ keeper. option_map day_row keeper.day };

    ghost keeping = { keep_day };

    ghost Frame = { Unit {0} };

    ghost frame = { λ _. tt };

    fn keep(&mut self, row: DayRow) -> Result<(), LineRefusal> {
        let day = Day::new(row.today, row.next).map_err(|refusal| LineRefusal::of_line(
            0, refusal,
        ))?;
        self.day = Some(KeptDay {
            day,
            mode: row.mode,
            curve: row.curve,
        });
        Ok(())
    }
}

impl DayKeeper {
    /// The day of a sheet that is read to its end and has just one row; else the sheet is refused
    /// at its trailer.
    pub(crate) fn one(&self, sheet: &ReadSheet<'_>) -> Result<KeptDay, RunRefusal>
        ensures { let kept = option_map day_row self.now.day in
            GivesOutcome
            (one_day (record { kept = kept; rows = sheet.now.rows; left = sheet.now.left }))
            (λ day. Ok (day_row day)) result }
    {
        match self.day {
            Some(day) if sheet.rows == 1 => Ok(day),
            _ => Err(RunRefusal::of_sheet(Refusal::Trailer, sheet.left.line().saturating_sub(1))),
        }
    }
}
