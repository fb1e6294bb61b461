//! The price and the percentage by which lines of an ISIN are margined.
use quantities::range::{MarginPercentage, UnitPrice};

/// The price of an ISIN and the margin percentage of its tranche.
#[derive(Clone, Copy)]
pub(crate) struct Quote {
    pub price: UnitPrice,
    pub percentage: MarginPercentage,
}
