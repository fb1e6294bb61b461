//! The rows of a statement.
use crate::scope::Scope;
use quantities::amount::{Cents, SignedCents};
use quantities::isin::Isin;

/// What the lines of an ISIN and block are charged: initial margin less variation margin.
#[derive(Clone, Copy, PartialEq, Eq, Debug)]
pub struct Row {
    pub isin: Isin,
    pub scope: Scope,
    pub initial_margin: Cents,
    pub variation_margin: SignedCents,
}
