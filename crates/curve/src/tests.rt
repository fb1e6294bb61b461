//! The edges of points and of both curves.
use crate::Curve;
use crate::point::points::Points;
use crate::point::*;
use crate::sloping::*;
use crate::step::*;
use quantities::range::Rate;
use quantities::refusal::*;

// Puts a point in that is handed as its parts.
fn added(points: &mut Points<'_>, term: u16, rate: i16) -> Result<(), Refusal> {
    points.add(Point::new(term, rate)?)
}

// The rate, or 10,000 and the number of the refusal.
fn answered(answer: Result<Rate, Refusal>) -> i32 {
    match answer {
        Ok(rate) => i32::from(rate.basis_points),
        Err(refusal) => 10_000 + i32::from(refusal.number()),
    }
}

#[test]
fn points_are_refused_in_order(rt: HostRuntime) {
    let mut places = [Point::default(); 80];
    let mut points = Points::new(&mut places);
    assert_eq!(rt; added(&mut points, 7, -500), Ok(()));
    assert_eq!(rt; added(&mut points, 7, -501), Err(Refusal::Value));
    assert_eq!(rt; added(&mut points, 7, 3_001), Err(Refusal::Value));
    assert_eq!(rt; added(&mut points, 7, 3_000), Err(Refusal::KeyPresent));
    for term in 100..163 {
        assert_eq!(rt; added(&mut points, term, 0), Ok(()));
    }
    assert_eq!(rt; added(&mut points, 65_535, 3_001), Err(Refusal::Value));
    assert_eq!(rt; added(&mut points, 100, 0), Err(Refusal::KeyPresent));
    assert_eq!(rt; added(&mut points, 65_535, 0), Err(Refusal::Full));
    assert_eq!(rt; points.records().len(), 64);
}

#[test]
fn curves_answer_at_their_edges(rt: HostRuntime) {
    let mut places = [Point::default(); 3];
    let mut points = Points::new(&mut places);
    assert_eq!(rt; answered(StepCurve { points: &points }.rate_for(0)), 10_012);
    assert_eq!(rt; added(&mut points, 30, -500), Ok(()));
    assert_eq!(rt; added(&mut points, 10, 1), Ok(()));
    assert_eq!(rt; added(&mut points, 20, 0), Ok(()));
    let step = StepCurve { points: &points };
    assert_eq!(rt; answered(step.rate_for(0)), 1);
    assert_eq!(rt; answered(step.rate_for(10)), 1);
    assert_eq!(rt; answered(step.rate_for(11)), 0);
    assert_eq!(rt; answered(step.rate_for(30)), -500);
    assert_eq!(rt; answered(step.rate_for(31)), 10_012);
}

#[test]
fn slopes_round_down_also_below_zero(rt: HostRuntime) {
    let mut places = [Point::default(); 3];
    let mut points = Points::new(&mut places);
    assert_eq!(rt; added(&mut points, 10, 1), Ok(()));
    assert_eq!(rt; added(&mut points, 20, 0), Ok(()));
    assert_eq!(rt; added(&mut points, 23, -1), Ok(()));
    let sloping = SlopingCurve { points: &points };
    assert_eq!(rt; answered(sloping.rate_for(3)), 1);
    assert_eq!(rt; answered(sloping.rate_for(11)), 0);
    assert_eq!(rt; answered(sloping.rate_for(20)), 0);
    assert_eq!(rt; answered(sloping.rate_for(21)), -1);
    assert_eq!(rt; answered(sloping.rate_for(23)), -1);
    assert_eq!(rt; answered(sloping.rate_for(24)), 10_012);
}
