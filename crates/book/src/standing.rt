//! The lines that stand.
ghost use Rattle.std.specs.Prelude.{◌≡◌, ◌≤◌, ◌<◌, ◌^◌, min, [], length};
ghost use Rattle.account.specs.ByIsin.{lines_by_isin, SmallReferences};
ghost use Rattle.account.specs.Calls.{line_rank};
ghost use Rattle.account.specs.Slots.{HoldsLines, HoldsByIsin};
ghost use Rattle.register.specs.Changes.{Inserts, Removes};
ghost use Rattle.register.specs.Contents.{loan_of};
ghost use Rattle.register.specs.Keys.{Ascends};
ghost use Rattle.register.specs.Search.{IsPlace};

use account::by_isin::ByIsin;
use account::line::Line;
use quantities::refusal::Refusal;
use register::order::{Order, Place};
use register::register::Register;
use std::marker::Model;

/// The lines that stand, by reference, and their places in the order of their ISINs.
#[derive(Drop)]
pub struct StandingLines<'l> {
    by_reference: Register<'l, Line>,
    by_isin: Order<'l>,
}

// A clause sees the lines by reference, how many there may be, and whose memory they are in.
impl<'l> Model for StandingLines<'l> {
    ghost use Rattle.book.specs.Standing.{LinesInMemory, StandInBothOrders};

    ghost Value = { LinesInMemory };

    ghost view = { λ s. record {
      records = s.by_reference.records;
      room = s.by_reference.room;
      memory = (s.by_reference.lent, s.by_isin.lent);
    } };

    ghost invariant = { λ s. StandInBothOrders s.by_reference s.by_isin };
}

/// The places that a line would have among those that stand.
#[derive(Clone, Copy)]
pub struct Places {
    pub by_reference: usize,
    pub by_isin: usize,
}

impl<'l> StandingLines<'l> {
    ghost use Rattle.book.specs.Standing.{HasPlaces};

    /// No lines, over memory for lines by reference and for their places by ISIN.
    pub(crate) fn new(places: &'l mut [Line], by_isin: &'l mut [Place]) -> Self
        ensures empty { result.records ≡ [] }
        ensures room { result.room ≡ min (min (length places.old) (length by_isin.old)) 65535 }
        ensures memory { result.memory ≡ (loan_of places.entry, loan_of by_isin.entry) }
    {
        let room = places.len().min(by_isin.len());
        let by_reference = Register::with_room(places, room);
        let by_isin = Order::with_room(by_isin, room);
        StandingLines {
            by_reference,
            by_isin,
        }
    }

    /// The lines, by reference.
    pub(crate) fn records(&self) -> &[Line]
        ensures all { result.now ≡ self.now.records }
        ensures ascends { Ascends line_rank self.now.records }
        ensures within { length self.now.records ≤ self.now.room }
        ensures few { self.now.room ≤ 65535 }
    {
        self.by_reference.records()
    }

    /// The lines, by ISIN.
    pub(crate) fn by_isin(&self) -> ByIsin<'_>
        ensures lines { result ≡ lines_by_isin self.now.records }
        ensures ascends { Ascends line_rank self.now.records }
    {
        ByIsin {
            lines: self.by_reference.records(),
            places: self.by_isin.places(),
        }
    }

    /// The place of a reference, or else the place that it would have.
    pub(crate) fn place_of(&self, reference: u32) -> Result<usize, usize>
        ensures place { IsPlace line_rank reference self.now.records result }
        ensures ascends { Ascends line_rank self.now.records }
    {
        self.by_reference.place_of(reference)
    }

    /// Puts in a line that has places; refuses it where no place is free.
    pub(crate) fn insert(&mut self, line: Line, places: Places) -> Result<(), Refusal>
        requires places { HasPlaces line self.old.records places }
        requires small { SmallReferences self.old.records }
        requires own { line.reference < 2 ^ 32 }
        ensures change { Inserts line_rank self.old.room line self.old.records result
            self.new.records }
        ensures room { self.new.room ≡ self.old.room }
        ensures memory { self.new.memory ≡ self.old.memory }
    {
        self.by_reference.insert_near(places.by_reference, line)?;
        self.by_isin.insert(places.by_isin, places.by_reference);
        Ok(())
    }

    /// Takes out the line of a reference; refuses one under which none stands.
    pub(crate) fn remove(&mut self, reference: u32) -> Result<Line, Refusal>
        requires { SmallReferences self.old.records }
        ensures change { Removes line_rank reference self.old.records result self.new.records }
        ensures room { self.new.room ≡ self.old.room }
        ensures memory { self.new.memory ≡ self.old.memory }
    {
        let Ok(place) = self.by_reference.place_of(reference) else {
            return Err(Refusal::NotStanding);
        };
        let rank = self.by_isin().rank_of(&self.records()[place]);
        self.by_isin.remove(rank, place);
        self.by_reference.remove(reference)
    }

    /// The memory that was lent, with the lines at its front, and their places by ISIN.
    pub(crate) fn into_memory(self) -> (&'l mut [Line], &'l mut [Place])
        ensures same { (loan_of result.0, loan_of result.1) ≡ self.entry.memory }
        ensures lines { HoldsLines self.entry.records result.0.now }
        ensures by_isin { HoldsByIsin self.entry.records result.1.now }
    {
        let StandingLines {
            by_reference,
            by_isin,
        } = self;
        (by_reference.into_memory(), by_isin.into_memory())
    }
}
