//! The sides of a line.

/// Which way the titles of a line go; a cash-only line that is bought pays, one that is sold
/// receives.
#[derive(Clone, Copy, PartialEq, Eq, Debug)]
pub enum Side {
    Bought,
    Sold,
}
