//! The points that a curve is made from.
ghost use Rattle.quantities.specs.RangeChecks.{numbers_of};
ghost use Rattle.quantities.specs.Ranges.{longest_curve_term};
ghost use Rattle.std.specs.Prelude.{◌≡◌, ◌≤◌};

use quantities::range::Rate;
use quantities::refusal::Refusal;
use register::record::Record;

pub mod points;

/// A rate at a term in days.
#[derive(Clone, Copy, Debug, PartialEq, Eq)]
pub struct Point {
    pub term: u16,
    pub rate: Rate,
    ghost within: { term ≤ longest_curve_term },
}

impl Point {
    ghost use Rattle.curve.specs.Points.{point_answer, point_parts};

    /// The point of a term and a rate; refuses a rate out of its range.
    pub fn new(term: u16, rate: i16) -> Result<Point, Refusal>
        ensures { numbers_of point_parts result ≡ point_answer term rate }
    {
        let rate = Rate::try_from(rate)?;
        Ok(Point { term, rate })
    }
}

/// What a free place may hold: the rate 0 at the term 0.
impl Default for Point {
    ghost use Rattle.std.specs.Prelude.{pos};
    ghost use Rattle.curve.specs.Points.{point_parts};

    ghost is_default = { λ p. point_parts p ≡ (0, pos 0) };

    fn default() -> Point {
        Point {
            term: 0,
            rate: Rate { basis_points: 0 },
        }
    }
}

/// Points go by their term.
impl Record for Point {
    type Key = u16;

    ghost key_of = { λ point. point.term };

    fn key(&self) -> u16 {
        self.term
    }
}
