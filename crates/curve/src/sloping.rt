//! The sloping curve.
ghost use Rattle.std.specs.Prelude.{◌≡◌, ◌<◌, pos, negsuc, ◌*ℤ◌, ◌≤ℤ◌};
ghost use Rattle.quantities.specs.Rounding.{round_down_signed};
ghost use Rattle.curve.specs.Points.{reach_of, rate_between, sloping_rate};
ghost use Rattle.curve.specs.Discounted.{slopes_discounting};

use crate::Curve;
use crate::point::Point;
use crate::point::points::Points;
use quantities::range::Rate;
use quantities::refusal::Refusal;

// The part of a rise that a term has come to, rounded down.
fn risen(rise: i32, ahead: u16, span: u16) -> i32
    requires { (negsuc 3499 ≤ℤ rise) × ((rise ≤ℤ pos 3500) × (ahead < span)) }
    ensures is { result ≡ round_down_signed (rise *ℤ pos ahead) span }
    ensures up { pos 0 ≤ℤ rise → (pos 0 ≤ℤ result) × (result ≤ℤ rise) }
    ensures down { rise ≤ℤ pos 0 → (rise ≤ℤ result) × (result ≤ℤ pos 0) }
{
    (rise * i32::from(ahead)).div_euclid(i32::from(span))
}

// The rate at a term between two neighbours, rounded down.
fn rate_between(previous: Point, next: Point, term: u16) -> Rate
    requires { (previous.term < term) × (term < next.term) }
    ensures { result.basis_points ≡ rate_between previous next term }
{
    let start = i32::from(previous.rate.basis_points);
    let rise = i32::from(next.rate.basis_points) - start;
    let slope = risen(rise, term - previous.term, next.term - previous.term);
    Rate {
        basis_points: (start + slope) as i16,
    }
}

/// Answers a point's rate at its term, the first rate below the first point, and the slope between
/// neighbours.
#[derive(Clone, Copy)]
pub struct SlopingCurve<'p, 'a> {
    pub points: &'p Points<'a>,
}

impl<'p, 'a> Curve for SlopingCurve<'p, 'a> {
    ghost reach = { λ curve. reach_of curve.points.now.records };

    ghost rate = { λ curve. sloping_rate curve.points.now.records };

    fn rate_for(&self, term: u16) -> Result<Rate, Refusal> {
        let (below, from) = self.points.split_at(term);
        let next = from.first().ok_or(Refusal::NoRate)?;
        match below.last() {
            Some(previous) if term < next.term => Ok(rate_between(*previous, *next, term)),
            _ => Ok(next.rate),
        }
    }

    ghost discounting = { λ curve. slopes_discounting curve.points.now.records };
}
