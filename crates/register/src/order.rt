//! The places of records, in an order of their own.
ghost use Rattle.std.specs.Prelude.{◌≡◌, ◌<◌, ◌≤◌, ◌+◌, min, [], length, map, take};
ghost use Rattle.register.specs.Contents.{room_in, loan_of, GivesBack};
ghost use Rattle.register.specs.Places.{moved_up, moved_down, with_place, PlacesWithin};
ghost use Rattle.register.specs.Places.{listed, unlisted};

use crate::register::{MOST, insert_at, remove_at};
use std::marker::Model;

/// The place of a record in its register, from 0.
pub type Place = u16;

/// The places of a register's records in another order than that of their keys, in the first
/// places of a lent slice; what the others contain does not matter.
#[derive(Drop)]
pub struct Order<'a> {
    memory: &'a mut [Place],
    room: usize,
    used: usize,
}

// A clause sees the places, how many there may be, and whose memory it is.
impl<'a> Model for Order<'a> {
    ghost use Rattle.std.specs.Prelude.{ℕ, take};
    ghost use Rattle.register.specs.Contents.{LentTable, loan_of};
    ghost use Rattle.register.specs.Places.{HoldsPlaces};

    ghost Value = { LentTable ℕ };

    ghost view = { λ o. record {
      records = take o.used o.memory.now;
      room = o.room;
      lent = loan_of o.memory;
    } };

    ghost invariant = { λ o. HoldsPlaces o.used o.room o.memory.now };
}

impl<'a> Order<'a> {
    /// An order of no records, with room for so many at most.
    pub fn with_room(memory: &'a mut [Place], most: usize) -> Self
        ensures empty { result.records ≡ [] }
        ensures room { result.room ≡ min (room_in (length memory.old)) most }
        ensures lent { result.lent ≡ loan_of memory.entry }
    {
        let room = memory.len().min(MOST).min(most);
        Order {
            memory,
            room,
            used: 0,
        }
    }

    /// The memory that was lent, with the places at its front.
    pub fn into_memory(self) -> &'a mut [Place]
        ensures { GivesBack self.entry.lent self.entry.records result }
    {
        self.memory
    }

    /// The places, in their order.
    pub fn places(&self) -> &[Place]
        ensures all { result.now ≡ self.now.records }
        ensures within { length self.now.records ≤ self.now.room }
        ensures few { self.now.room ≤ 65535 }
    {
        &self.memory[..self.used]
    }

    /// Lists a record at a rank that is put in at a place: those from there on stand one place up.
    /// A rank or a place behind the last is the one after it. Without room nothing is listed.
    pub fn insert(&mut self, rank: usize, place: usize)
        ensures places { self.new.records ≡ listed rank place self.old.room self.old.records }
        ensures room { self.new.room ≡ self.old.room }
        ensures lent { self.new.lent ≡ self.old.lent }
    {
        if self.used >= self.room {
            return;
        }
        let (rank, place) = (rank.min(self.used), place.min(self.used));
        list_at(self.memory, self.used, rank, place);
        self.used += 1;
    }

    /// Lists the record of a rank no more, which is taken out of a place: those behind it stand one
    /// place down. Where there is no such rank or place, all stay.
    pub fn remove(&mut self, rank: usize, place: usize)
        ensures places { self.new.records ≡ unlisted rank place self.old.records }
        ensures room { self.new.room ≡ self.old.room }
        ensures lent { self.new.lent ≡ self.old.lent }
    {
        if rank >= self.used || place >= self.used {
            return;
        }
        let left = self.used - 1;
        remove_at(self.memory, self.used, rank);
        move_down(&mut self.memory[..left], place as Place);
        self.used = left;
    }
}

// Lists a place at a rank among the first `used`, of which those from it on move up.
fn list_at(memory: &mut [Place], used: usize, rank: usize, place: usize)
    requires free { (used < length memory.old) × (used < 65535) }
    requires within { PlacesWithin used (take used memory.old) }
    requires rank { (rank ≤ used) × (place ≤ used) }
    ensures { take (used + 1) memory.new ≡ with_place rank place (take used memory.old) }
{
    move_up(&mut memory[..used], place);
    insert_at(memory, used, rank, place as Place);
}

// Where a record stands once another is put in at a place.
fn moved_up(at: Place, place: Place) -> Place
    requires { place < 65535 }
    ensures { result ≡ moved_up at place }
{
    if place < at { place } else { place + 1 }
}

// Where a record stands once another is taken out of a place.
fn moved_down(at: Place, place: Place) -> Place
    ensures { result ≡ moved_down at place }
{
    if place < at {
        place
    } else {
        place.saturating_sub(1)
    }
}

// Mostly a record is put in at the end, and no place moves.
fn move_up(places: &mut [Place], at: usize)
    requires { PlacesWithin (length places.old) places.old × (length places.old ≤ 65535) }
    ensures { places.new ≡ map (moved_up at) places.old }
{
    if at >= places.len() {
        return;
    }
    for place in places.iter_mut() {
        *place = moved_up(at as Place, *place);
    }
}

fn move_down(places: &mut [Place], at: Place)
    ensures { places.new ≡ map (moved_down at) places.old }
{
    for place in places.iter_mut() {
        *place = moved_down(at, *place);
    }
}
