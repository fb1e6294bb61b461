//! The step curve.
ghost use Rattle.curve.specs.Points.{reach_of, step_rate};
ghost use Rattle.curve.specs.Discounted.{steps_discounting};

use crate::Curve;
use crate::point::points::Points;
use quantities::range::Rate;
use quantities::refusal::Refusal;

/// Answers the rate of the first point whose term is not below the one asked.
#[derive(Clone, Copy)]
pub struct StepCurve<'p, 'a> {
    pub points: &'p Points<'a>,
}

impl<'p, 'a> Curve for StepCurve<'p, 'a> {
    ghost reach = { λ curve. reach_of curve.points.now.records };

    ghost rate = { λ curve. step_rate curve.points.now.records };

    fn rate_for(&self, term: u16) -> Result<Rate, Refusal> {
        let (_, from) = self.points.split_at(term);
        let point = from.first().ok_or(Refusal::NoRate)?;
        Ok(point.rate)
    }

    ghost discounting = { λ curve. steps_discounting curve.points.now.records };
}
