//! The points of a curve keep the rows of points.
ghost use Rattle.curve.specs.declared.point.Point.{Point};
ghost use Rattle.register.specs.Contents.{Table};
ghost use Rattle.run.specs.Kept.{keep_point};

use super::answer_with_reference;
use crate::keeper::Keeper;
use account::line_refusal::LineRefusal;
use curve::point::Point;
use curve::point::points::Points;

impl<'a> Keeper<Point> for Points<'a> {
    ghost Kept = { Table Point };

    ghost kept = { λ points. points };

    ghost keeping = { keep_point };

    ghost Frame = { Unit {0} };

    ghost frame = { λ _. tt };

    fn keep(&mut self, row: Point) -> Result<(), LineRefusal> {
        answer_with_reference(0, self.add(row))
    }
}
