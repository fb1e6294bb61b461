//! Lines by their ISINs.
ghost use Rattle.std.specs.Prelude.{◌≡◌, ◌-◌, ◌<◌, ◌≤◌, IsTrue, IsFalse, length, take, drop, slice_get, slice_index_or};
ghost use Rattle.std.specs.List.{list_all};
ghost use Rattle.std.specs.Option.{option_map};
ghost use Rattle.std.specs.Iterator.{YieldsFirstRef, item_count};
ghost use Rattle.account.specs.ByIsin.{isin_line_rank, lines_beside, no_line};
ghost use Rattle.account.specs.ByIsin.{FitsKey, OtherFirst, StandTogether};
ghost use Rattle.account.specs.Lines.{same_isin, keep, any};
ghost use Rattle.register.specs.Keys.{Ascends};
ghost use Rattle.register.specs.Search.{SplitsAt};

use crate::isin_reference::IsinReference;
use crate::line::Line;
use quantities::isin::Isin;
use register::key::Key;
use register::order::Place;
use std::marker::Model;

/// Lines in the order that places among them give, which is by their ISINs.
#[derive(Drop)]
pub struct ByIsin<'a> {
    pub lines: &'a [Line],
    pub places: &'a [Place],
}

// A clause sees the lines in their order.
impl<'a> Model for ByIsin<'a> {
    ghost use Rattle.std.specs.Prelude.{List, length};
    ghost use Rattle.account.specs.declared.line.Line.{Line};
    ghost use Rattle.account.specs.ByIsin.{lines_at};
    ghost use Rattle.register.specs.Places.{PlacesWithin};

    ghost Value = { List Line };

    ghost view = { λ b. lines_at b.places.now b.lines.now };

    ghost invariant = { λ b. PlacesWithin (length b.lines.now) b.places.now };
}

impl<'a> ByIsin<'a> {
    /// How many lines there are.
    pub fn len(&self) -> usize
        ensures { result ≡ length self.now }
    {
        self.places.len()
    }

    /// The lines, one after another.
    pub fn iter(&self) -> ByIsin<'a>
        ensures { result ≡ self.now }
    {
        ByIsin {
            lines: self.lines,
            places: self.places,
        }
    }

    /// The first line.
    pub fn first(&self) -> Option<&'a Line>
        ensures { option_map (λ l. l.now) result ≡ slice_get self.now 0 }
    {
        self.iter().next()
    }

    /// The lines before a rank; all, where there is no such rank.
    pub fn before(&self, rank: usize) -> ByIsin<'a>
        ensures { result ≡ take rank self.now }
    {
        ByIsin {
            lines: self.lines,
            places: &self.places[..rank.min(self.places.len())],
        }
    }

    /// The lines from a rank on; none, where there is no such rank.
    pub fn from(&self, rank: usize) -> ByIsin<'a>
        ensures { result ≡ drop rank self.now }
    {
        ByIsin {
            lines: self.lines,
            places: &self.places[rank.min(self.places.len())..],
        }
    }

    // The line of a rank.
    fn line(&self, rank: usize) -> &'a Line
        requires { rank < length self.now }
        ensures { result.now ≡ slice_index_or self.now rank no_line }
    {
        let (lines, places) = (self.lines, self.places);
        &lines[usize::from(places[rank])]
    }

    /// How many lines at the front are of an ISIN.
    pub fn leading(&self, isin: Isin) -> usize
        ensures within { result ≤ length self.now }
        ensures all { IsTrue (list_all (λ l. same_isin l.isin isin) (take result self.now)) }
        ensures rest { OtherFirst isin (drop result self.now) }
    {
        let mut rank = 0;
        while rank < self.len() && self.line(rank).isin == isin {
            rank += 1;
        }
        rank
    }

    /// Whether one of the lines beside a rank is of an ISIN: only these two are looked at.
    pub fn has_beside(&self, isin: Isin, rank: usize) -> bool
        ensures { result ≡ any (λ l. same_isin l.isin isin) (lines_beside rank self.now) }
    {
        let beside = self.from(rank.saturating_sub(1)).before(2);
        beside.leading(isin) + beside.from(1).leading(isin) > 0
    }

    // The rank from which on the lines are of an ISIN, to the end.
    fn trailing(&self, isin: Isin) -> usize
        ensures within { result ≤ length self.now }
        ensures all { IsTrue (list_all (λ l. same_isin l.isin isin) (drop result self.now)) }
        ensures rest { 0 < result →
            IsFalse (same_isin (slice_index_or self.now (result - 1) no_line).isin isin) }
    {
        let mut rank = self.len();
        while rank > 0 && self.line(rank - 1).isin == isin {
            rank -= 1;
        }
        rank
    }

    /// The lines of an ISIN on both sides of a rank: all of its lines, where they stand together
    /// there.
    pub fn lines_of(&self, isin: Isin, rank: usize) -> ByIsin<'a>
        ensures { StandTogether isin (take rank self.now) (drop rank self.now) →
            result ≡ keep (λ l. same_isin l.isin isin) self.now }
    {
        let first = self.before(rank).trailing(isin);
        let end = rank + self.from(rank).leading(isin);
        self.before(end).from(first)
    }

    /// The rank of a line, or else the rank that it would have, where the lines ascend.
    pub fn rank_of(&self, line: &Line) -> usize
        ensures within { result ≤ length self.now }
        ensures parts { Ascends isin_line_rank self.now →
            SplitsAt isin_line_rank (isin_line_rank line.now) self.now result }
        ensures fits { FitsKey line.now }
    {
        let key = IsinReference::of_line(line);
        let mut low = 0;
        let mut high = self.len();
        while low < high {
            let middle = low + (high - low) / 2;
            if IsinReference::of_line(self.line(middle))
                .order(&key)
                .is_lt()
            {
                low = middle + 1;
            } else {
                high = middle;
            }
        }
        low
    }
}

// The lines from the front on: what is left stands in the view.
impl<'a> Iterator for ByIsin<'a> {
    type Item = &'a Line;

    ghost next_gives = { YieldsFirstRef (λ s. s) };

    ghost remaining = { item_count (λ s. s) };

    fn next(&mut self) -> Option<&'a Line> {
        let (place, places) = self.places.split_first()?;
        self.places = places;
        Some(&self.lines[usize::from(*place)])
    }
}
