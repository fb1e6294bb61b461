//! The promise of a run: it is the contract of a function that does nothing else.
ghost use Rattle.run.specs.Spelled.{SheetsSpellLaw};
ghost use Rattle.run.specs.Laws.{RowsLaw, SpelledRowsLaw, OneAccountLaw, MarginLaw, RunStatementLaw, RefusalsLaw};

/// Each law is proved of the definitions.
pub fn run_laws_stand()
    // What is loaded is what the rows of the five sheets say under the names of their columns.
    ensures rows_law { RowsLaw }
    // Each line that stands has its line of the input, whose cells under the needed names spell it,
    // and each row's line of the position sheet has its line standing; likewise for the prices, the
    // percentages, the points of the curve and the day.
    ensures sheets_spell_law { SheetsSpellLaw }
    // Sheets that spell an account are read, and their rows say it: they spell no other.
    ensures spelled_rows_law { SpelledRowsLaw }
    ensures one_account_law { OneAccountLaw }
    // A margin is that of the lines, never below the exact one, and above it by at most one cent
    // for each rounded amount.
    ensures margin_law { MarginLaw }
    // A statement says such a margin.
    ensures statement_law { RunStatementLaw }
    // Each refusal is of one of four layers, with the numbers that the layer has, a line of the
    // input, and the reference of the position on it.
    ensures refusals_law { RefusalsLaw }
{}
