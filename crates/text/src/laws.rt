//! The laws of texts: they are the contract of a function that does nothing else.
ghost use Rattle.text.specs.Laws.{LinesLaw, LinesReadLaw, CellsLaw, CellsReadLaw, PrintedLaw, SpellingLaw, SignedPrintedLaw, SignedSpellingLaw};

/// Each law is proved of the definitions.
pub fn text_laws_stand()
    // A text is its lines, each with its line feed behind it, and then what is loose.
    ensures lines_law { LinesLaw }
    // Lines that are written are read.
    ensures lines_read_law { LinesReadLaw }
    // A line is its cells, parted by semicolons.
    ensures cells_law { CellsLaw }
    // Cells that are written are read.
    ensures cells_read_law { CellsReadLaw }
    // What is printed of a number is read.
    ensures printed_law { PrintedLaw }
    // A cell that is read as a number is what is printed of it.
    ensures spelling_law { SpellingLaw }
    // The two, of numbers that may be negative.
    ensures signed_printed_law { SignedPrintedLaw }
    ensures signed_spelling_law { SignedSpellingLaw }
{}
