//! The blocks in which lines stand.
use quantities::date::Date;

/// Where a line stands, with its date: for a trade the day on which it settles.
#[derive(Clone, Copy, PartialEq, Eq, Debug)]
pub enum Block {
    Trade(Date),
    Failed(Date),
    Held(Date),
    CashOnly(Date),
}
