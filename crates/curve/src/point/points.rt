//! Points by term, in lent memory.
ghost use Rattle.std.specs.Prelude.{◌≡◌, ◌≤◌, min, [], length, Some, OnOk};
ghost use Rattle.register.specs.Changes.{insert_answer, insert_after, Finds};
ghost use Rattle.register.specs.Keys.{Ascends, below_rank, from_rank};
ghost use Rattle.register.specs.Search.{SplitsAt};
ghost use Rattle.curve.specs.Points.{point_rank};

use super::Point;
use quantities::refusal::Refusal;
use register::register::Register;
use std::marker::Model;

// How many points are passed at a time.
const STRIDE: usize = 8;

/// At most 64 points with different terms, ascending by term.
#[derive(Drop)]
pub struct Points<'a> {
    list: Register<'a, Point>,
}

// A clause sees the points and how many there may be.
impl<'a> Model for Points<'a> {
    ghost use Rattle.register.specs.Contents.{Table};
    ghost use Rattle.curve.specs.declared.point.Point.{Point};

    ghost Value = { Table Point };

    ghost view = { λ points. record {
      records = points.list.records;
      room = points.list.room;
    } };
}

impl<'a> Points<'a> {
    /// How many points a curve has at most.
    pub const MOST: usize = 64;

    /// No points, over memory for them.
    pub fn new(places: &'a mut [Point]) -> Self
        ensures none { result.records ≡ [] }
        ensures room { result.room ≡ min (length places.old) 64 }
    {
        Points {
            list: Register::with_room(places, Points::MOST),
        }
    }

    /// The points by term.
    pub fn records(&self) -> &[Point]
        ensures all { result.now ≡ self.now.records }
        ensures ascends { Ascends point_rank self.now.records }
        ensures within { length self.now.records ≤ self.now.room }
        ensures few { self.now.room ≤ 65535 }
    {
        self.list.records()
    }

    /// The points of terms below that one, and those from it on.
    pub fn split_at(&self, term: u16) -> (&[Point], &[Point])
        ensures below { result.0.now ≡ below_rank point_rank term self.now.records }
        ensures from { result.1.now ≡ from_rank point_rank term self.now.records }
        ensures ascends { Ascends point_rank self.now.records }
    {
        let points = self.records();
        points.split_at(first_from(points, term))
    }

    /// Puts a point in by its term; refuses a term that has a point, then a point without a place.
    pub fn add(&mut self, point: Point) -> Result<(), Refusal>
        ensures answer { result ≡ insert_answer point_rank self.old.room point self.old.records }
        ensures after { self.new ≡ record self.old {
          records = insert_after point_rank self.old.room point self.old.records;
        } }
        ensures ascends { Ascends point_rank self.new.records }
        ensures found { OnOk result
            (Finds point_rank point.term (Some point) self.old.records self.new.records) }
    {
        self.list.insert(point)
    }
}

// The place of the first point from a term on. Points are few: they are sooner passed than halved.
fn first_from(points: &[Point], term: u16) -> usize
    requires { Ascends point_rank points.now }
    ensures parts { SplitsAt point_rank term points.now result }
    ensures within { result ≤ length points.now }
{
    let mut at = 0;
    while points.len() - at >= STRIDE && points[at + STRIDE - 1].term < term {
        at += STRIDE;
    }
    while at < points.len() && points[at].term < term {
        at += 1;
    }
    at
}
