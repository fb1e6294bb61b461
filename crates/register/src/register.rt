//! Records in the order of their keys.
ghost use Rattle.std.specs.Prelude.{◌≡◌, Ok, Err, ◌+◌, ◌-◌, ◌<◌, ◌≤◌, min, [], length, take, ◌==◌, IsTrue, IfOk, IfSome, slice_index_or};
ghost use Rattle.std.specs.Option.{option_map};
ghost use Rattle.std.specs.List.{insert, remove};
ghost use Rattle.register.specs.Contents.{room_in, loan_of, GivesBack};
ghost use Rattle.register.specs.Keys.{key_rank, Ascends, found_by, below_rank, from_rank};
ghost use Rattle.register.specs.Changes.{Inserts, Removes};
ghost use Rattle.register.specs.Search.{IsPlace, LastBelow, FirstAbove, guess_after};

use crate::key::Key;
use crate::record::Record;
use quantities::refusal::Refusal;
use std::marker::Model;

// No more places than this are used, however many are lent.
pub(crate) const MOST: usize = 65_535;

/// Records in the order of their keys, in the first places of a lent slice;
/// what the other places contain does not matter.
#[derive(Drop)]
pub struct Register<'a, R: Record> {
    // A lent slice and a count, since the engine takes no memory of its own.
    places: &'a mut [R],
    room: usize,
    used: usize,
}

// A clause sees the records, how many there may be, and whose memory it is.
impl<'a, R: Record> Model for Register<'a, R> {
    ghost use Rattle.std.specs.Prelude.{take};
    ghost use Rattle.register.specs.Contents.{LentTable, Holds, loan_of};
    ghost use Rattle.register.specs.Keys.{key_rank};

    ghost Value = { LentTable R };

    ghost view = { λ g. record {
      records = take g.used g.places.now;
      room = g.room;
      lent = loan_of g.places;
    } };

    ghost invariant = { λ g. Holds (key_rank R.Key.rank R.key_of) g.used g.room g.places.now };
}

impl<'a, R: Record> Register<'a, R> {
    /// A register that holds no records.
    pub fn new(places: &'a mut [R]) -> Self
        ensures empty { result.records ≡ [] }
        ensures room { result.room ≡ room_in (length places.old) }
        ensures lent { result.lent ≡ loan_of places.entry }
    {
        Register::with_room(places, MOST)
    }

    /// A register that holds no records, with room for so many at most.
    pub fn with_room(places: &'a mut [R], most: usize) -> Self
        ensures empty { result.records ≡ [] }
        ensures room { result.room ≡ min (room_in (length places.old)) most }
        ensures lent { result.lent ≡ loan_of places.entry }
    {
        let room = places.len().min(MOST).min(most);
        Register {
            places,
            room,
            used: 0,
        }
    }

    /// The memory that was lent, with the records at its front.
    pub fn into_memory(self) -> &'a mut [R]
        ensures { GivesBack self.entry.lent self.entry.records result }
    {
        self.places
    }

    /// How many records it can hold.
    pub fn room(&self) -> usize
        ensures is { result ≡ self.now.room }
        ensures most { result ≤ 65535 }
    {
        self.room
    }

    /// How many records it holds.
    pub fn len(&self) -> usize
        ensures count { result ≡ length self.now.records }
        ensures within { result ≤ self.now.room }
    {
        self.used
    }

    /// Whether it holds no records.
    pub fn is_empty(&self) -> bool
        ensures { result ≡ (length self.now.records == 0) }
    {
        self.len() == 0
    }

    /// The records, in the order of their keys.
    pub fn records(&self) -> &[R]
        ensures all { result.now ≡ self.now.records }
        ensures ascends { Ascends (key_rank R.Key.rank R.key_of) self.now.records }
        ensures within { length self.now.records ≤ self.now.room }
        ensures few { self.now.room ≤ 65535 }
    {
        &self.places[..self.used]
    }

    /// The record with that key.
    pub fn find(&self, key: R::Key) -> Option<&R>
        ensures keyed { IfSome result (λ x. R.key_of x.now ≡ key) }
        ensures found { option_map (λ x. x.now) result
            ≡ found_by (key_rank R.Key.rank R.key_of) (R.Key.rank key) self.now.records }
    {
        let at = self.place_of(key).ok()?;
        Some(&self.records()[at])
    }

    /// The same, of a record whose place is guessed: the guess is looked at first, and the place is
    /// searched for where it is wrong. What is found moves the guess to the place behind it.
    pub fn find_near(&self, guess: &mut usize, key: R::Key) -> Option<&R>
        ensures found { option_map (λ x. x.now) result
            ≡ found_by (key_rank R.Key.rank R.key_of) (R.Key.rank key) self.now.records }
        ensures moved { guess.new ≡ guess_after (key_rank R.Key.rank R.key_of) (R.Key.rank key)
            self.now.records guess.old }
    {
        let at = self.stands_near(*guess, key).ok()?;
        let records = self.records();
        *guess = at + 1;
        Some(&records[at])
    }

    /// The records with a key below that one, and those from it on.
    pub fn split_at_key(&self, key: R::Key) -> (&[R], &[R])
        ensures below { result.0.now
            ≡ below_rank (key_rank R.Key.rank R.key_of) (R.Key.rank key) self.now.records }
        ensures from { result.1.now
            ≡ from_rank (key_rank R.Key.rank R.key_of) (R.Key.rank key) self.now.records }
        ensures ascends { Ascends (key_rank R.Key.rank R.key_of) self.now.records }
    {
        let (Ok(at) | Err(at)) = self.place_of(key);
        self.records().split_at(at)
    }

    /// Puts the record in its place;
    /// refuses a key that is present, then a record for which no place is free.
    pub fn insert(&mut self, record: R) -> Result<(), Refusal>
        ensures change { Inserts (key_rank R.Key.rank R.key_of) self.old.room «record»
            self.old.records result self.new.records }
        ensures ascends { Ascends (key_rank R.Key.rank R.key_of) self.old.records }
        ensures room { self.new.room ≡ self.old.room }
        ensures lent { self.new.lent ≡ self.old.lent }
    {
        // mostly records come in the order of their keys
        self.insert_near(self.used, record)
    }

    /// The same, of a record whose place is guessed:
    /// the guess is looked at first, and the place is searched for where it is wrong.
    pub fn insert_near(&mut self, place: usize, record: R) -> Result<(), Refusal>
        ensures change { Inserts (key_rank R.Key.rank R.key_of) self.old.room «record»
            self.old.records result self.new.records }
        ensures ascends { Ascends (key_rank R.Key.rank R.key_of) self.old.records }
        ensures room { self.new.room ≡ self.old.room }
        ensures lent { self.new.lent ≡ self.old.lent }
    {
        let Err(at) = self.place_near(place, record.key()) else {
            return Err(Refusal::KeyPresent);
        };
        if self.used >= self.room() {
            return Err(Refusal::Full);
        }
        insert_at(self.places, self.used, at, record);
        self.used += 1;
        Ok(())
    }

    /// Takes the record with that key out; refuses a key under which none stands.
    pub fn remove(&mut self, key: R::Key) -> Result<R, Refusal>
        ensures change { Removes (key_rank R.Key.rank R.key_of) (R.Key.rank key)
            self.old.records result self.new.records }
        ensures ascends { Ascends (key_rank R.Key.rank R.key_of) self.old.records }
        ensures room { self.new.room ≡ self.old.room }
        ensures lent { self.new.lent ≡ self.old.lent }
    {
        let at = self.place_of(key).map_err(|_| Refusal::NotStanding)?;
        let record = self.places[at];
        remove_at(self.places, self.used, at);
        self.used -= 1;
        Ok(record)
    }

    /// The place of the record with that key, or else the place that it would have.
    pub fn place_of(&self, key: R::Key) -> Result<usize, usize>
        ensures place { IsPlace (key_rank R.Key.rank R.key_of) (R.Key.rank key)
            self.now.records result }
        ensures keyed { IfOk result (λ p. (x : R) →
            x ≡ slice_index_or self.now.records p x → R.key_of x ≡ key) }
        ensures ascends { Ascends (key_rank R.Key.rank R.key_of) self.now.records }
    {
        let records = self.records();
        let at = records.partition_point(|record| record.key().order(&key).is_lt());
        match records.get(at) {
            Some(record) if record.key().order(&key).is_eq() => Ok(at),
            _ => Err(at),
        }
    }

    // Whether a key that is absent would have that place.
    fn is_place(&self, place: usize, key: R::Key) -> bool
        ensures { IsTrue result → IsPlace (key_rank R.Key.rank R.key_of) (R.Key.rank key)
            self.now.records (Err place) }
    {
        let records = self.records();
        if place > records.len() {
            return false;
        }
        let (before, after) = records.split_at(place);
        is_last_below(before, key) && is_first_above(after, key)
    }

    // The place of the record with that key, or else the place that it would have;
    // there is a guess of the latter.
    fn place_near(&self, place: usize, key: R::Key) -> Result<usize, usize>
        ensures { IsPlace (key_rank R.Key.rank R.key_of) (R.Key.rank key)
            self.now.records result }
    {
        if self.is_place(place, key) {
            Err(place)
        } else {
            self.place_of(key)
        }
    }

    // Whether the record of that place has that key.
    fn stands_at(&self, place: usize, key: R::Key) -> bool
        ensures { IsTrue result → IsPlace (key_rank R.Key.rank R.key_of) (R.Key.rank key)
            self.now.records (Ok place) }
    {
        match self.records().get(place) {
            Some(record) => record.key().order(&key).is_eq(),
            None => false,
        }
    }

    // The same as `place_near`, with a guess of the place of a record that is there.
    fn stands_near(&self, place: usize, key: R::Key) -> Result<usize, usize>
        ensures { IsPlace (key_rank R.Key.rank R.key_of) (R.Key.rank key)
            self.now.records result }
    {
        if self.stands_at(place, key) {
            Ok(place)
        } else {
            self.place_of(key)
        }
    }
}

fn is_last_below<R: Record>(records: &[R], key: R::Key) -> bool
    ensures { IsTrue result →
        LastBelow (key_rank R.Key.rank R.key_of) (R.Key.rank key) records.now }
{
    match records.last() {
        Some(last) => last.key().order(&key).is_lt(),
        None => true,
    }
}

fn is_first_above<R: Record>(records: &[R], key: R::Key) -> bool
    ensures { IsTrue result →
        FirstAbove (key_rank R.Key.rank R.key_of) (R.Key.rank key) records.now }
{
    match records.first() {
        Some(first) => first.key().order(&key).is_gt(),
        None => true,
    }
}

/// Puts a record at a place among the first `used`, and those from there on one place up.
pub(crate) fn insert_at<R: Copy>(places: &mut [R], used: usize, at: usize, record: R)
    requires { (at ≤ used) × (used < length places.old) }
    ensures { take (used + 1) places.new ≡ insert (take used places.old) at «record» }
{
    places[used] = record;
    places[at..used + 1].rotate_right(1);
}

/// Closes the gap at a place among the first `used`.
pub(crate) fn remove_at<R: Copy>(places: &mut [R], used: usize, at: usize)
    requires { (at < used) × (used ≤ length places.old) }
    ensures { take (used - 1) places.new ≡ remove (take used places.old) at }
{
    places.copy_within(at + 1..used, at);
}
