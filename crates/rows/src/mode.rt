//! The mode of an account.

/// The netting rule that the account is under.
#[derive(Clone, Copy, PartialEq, Eq, Debug)]
pub enum Mode {
    Net,
    Gross,
}
