//! The shape of a curve.

/// How rates lie between the points of the curve.
#[derive(Clone, Copy, PartialEq, Eq, Debug)]
pub enum CurveShape {
    Step,
    Sloping,
}
