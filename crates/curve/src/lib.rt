//! Discount curves: a rate for each term below a reach.
#![tactic(auto)]

ghost use Rattle.std.specs.Prelude.{◌≡◌, ℕ, ℤ};
ghost use Rattle.quantities.specs.RangeChecks.{numbers_of};
ghost use Rattle.curve.specs.Curves.{rate_answer, Discounting};

use quantities::range::Rate;
use quantities::refusal::Refusal;

pub mod point;
pub mod sloping;
pub mod step;

/// A curve means a reach and one rate for each term in days below it.
pub trait Curve {
    ghost reach: { Self → ℕ };

    ghost rate: { Self → ℕ → ℤ };

    /// The rate for a term; refuses a term that is not below the reach.
    fn rate_for(&self, term: u16) -> Result<Rate, Refusal>
        ensures answer { numbers_of (λ rate. rate.basis_points) result
            ≡ rate_answer (reach self.now) (rate self.now) term }
        ensures unchanged { self.exit.now ≡ self.entry.now };

    ghost discounting: { (curve : Self) → Discounting (reach curve) (rate curve) };
}

#[cfg(test)]
mod tests;
