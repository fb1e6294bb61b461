//! The scenarios of a margin.

/// Which trades settle: all, those not dated today, or those dated after the next business day.
#[derive(Clone, Copy, PartialEq, Eq, Debug)]
pub enum Scenario {
    AllTrades,
    WithoutToday,
    AfterNext,
}
