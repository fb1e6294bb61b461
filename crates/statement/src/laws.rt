//! The law of a statement's text: it is the contract of a function that does nothing else.
ghost use Rattle.statement.specs.Laws.{StatementLaw};

/// The law is proved of the definitions.
pub fn statement_laws_stand()
    // A statement's text is of one list of rows and of one margin: no others have the same text.
    ensures { StatementLaw }
{}
