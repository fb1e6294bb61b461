//! The laws of sheets: they are the contract of a function that does nothing else.
ghost use Rattle.sheet.specs.Written.{ReadAsWritten};
ghost use Rattle.sheet.specs.Causes.{CausesStand};
ghost use Rattle.sheet.specs.Laws.{EachNameStands, ReadByName, OpenedHasNames, StaysNamed, AcceptedRows, LeftmostReported, LinesCounted, LinesReported, SameReadings};

use crate::kind::RowKind;

/// Each law is proved of the definitions, for any kind of row.
pub fn sheet_laws_stand<K: RowKind>()
    // Each needed name stands in line 2.
    ensures each_name_stands { EachNameStands }
    // In whatever order, a row is read by the cells under the needed names.
    ensures read_by_name { ReadByName }
    // A sheet that is opened has the needed names, and has them from row to row.
    ensures opened_has_names { OpenedHasNames K.kind }
    ensures stays_named { StaysNamed K.kind }
    // A row that is accepted has a cell for each column, and the needed ones fit and make it.
    ensures accepted_rows { AcceptedRows K.kind }
    // Of the cells that do not fit, the leftmost is reported.
    ensures leftmost_reported { LeftmostReported K.kind }
    // Each line that is read raises the number of the next by one.
    ensures lines_counted { LinesCounted K.kind }
    // A refusal tells a line that is left, or the one after the last where a line is missing.
    ensures lines_reported { LinesReported K.kind }
    // A sheet is refused just where something is wrong with it, for the first thing that is wrong.
    ensures causes_stand { CausesStand K.kind }
    // Sheets with the same cells under the needed names are read alike,
    // whatever their other columns and their order.
    ensures same_readings { SameReadings K.kind }
    // A sheet is read, with those rows, just where it is written so: its mark and a version, the
    // needed names in any order, a line for each row, and END with their count.
    ensures read_as_written { ReadAsWritten K.kind }
{}
