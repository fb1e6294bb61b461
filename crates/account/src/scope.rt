//! What a row is worked on.
use crate::scenario::Scenario;

/// The lines of an ISIN that a row is worked on.
#[derive(Clone, Copy, PartialEq, Eq, Debug)]
pub enum Scope {
    Trades(Scenario),
    FailedLines,
    HeldLines,
    CashOnlyLines,
}
