//! The steps of a trade's charge.
use quantities::amount::{Cents, SignedCents};
use quantities::range::Titles;
use quantities::term::Term;
use quantities::tranche::Tranche;

/// What each step of a trade's charge comes to.
#[derive(Clone, Copy)]
pub struct ChargeSteps {
    pub term: Term,
    pub tranche: Tranche,
    pub present_value_up: Cents,
    pub present_value_down: Cents,
    pub charged: Titles,
    pub initial_margin: Cents,
    pub market_value: SignedCents,
    pub variation_margin: SignedCents,
    pub charge: SignedCents,
}
