//! Rows as they are counted, added up and written.
ghost use Rattle.std.specs.Prelude.{◌≡◌, [], ◌∷◌, slice_set, IfSome};
ghost use Rattle.std.specs.Option.{option_to_list};
ghost use Rattle.valuation.specs.RowCharges.{RowWithin};
ghost use Rattle.valuation.specs.Spaces.{TallyWithin};
ghost use Rattle.valuation.specs.Tallies.{rounded_count, IsEmpty, AddsRows};

use crate::row_charges::charge_of;
use account::row::Row;
use account::scope::Scope;
use quantities::amount::SignedCents;

/// The charges of rows by block, their count and that of their rounded amounts, and lent places
/// into which they are written as far as there are any.
// A lent slice and a count, since the engine takes no memory of its own.
#[derive(Drop)]
pub(crate) struct Tally<'r> {
    pub rows: &'r mut [Row],
    pub count: usize,
    pub trades: SignedCents,
    pub failed: SignedCents,
    pub held: SignedCents,
    pub cash_only: SignedCents,
    pub rounded_amounts: u32,
}

impl<'r> Tally<'r> {
    /// A tally of no rows, over places for them.
    pub(crate) fn new(rows: &'r mut [Row]) -> Self
        ensures none { IsEmpty rows.old result }
        ensures lender { result.rows.ghost_name ≡ rows.entry.ghost_name }
    {
        Tally {
            rows,
            count: 0,
            trades: 0,
            failed: 0,
            held: 0,
            cash_only: 0,
            rounded_amounts: 0,
        }
    }

    // The room is a clause and no invariant: it is counted anew for each ISIN.
    /// Counts a row, adds its charge to its block, and writes it where there is a place for it.
    pub(crate) fn add(&mut self, row: Row)
        requires room { TallyWithin 65535 self.old }
        requires bounded { RowWithin 65535 row }
        ensures { AddsRows (row ∷ []) self.old self.new }
    {
        let place = self.count;
        write_at(self.rows, place, row);
        self.count = place + 1;
        self.rounded_amounts += rounded_count(row);
        let charge = charge_of(row);
        match row.scope {
            Scope::Trades(_) => self.trades += charge,
            Scope::FailedLines => self.failed += charge,
            Scope::HeldLines => self.held += charge,
            Scope::CashOnlyLines => self.cash_only += charge,
        }
    }

    /// Adds a row, where there is one.
    pub(crate) fn add_if_any(&mut self, row: Option<Row>)
        requires room { TallyWithin 65535 self.old }
        requires bounded { IfSome row (RowWithin 65535) }
        ensures { AddsRows (option_to_list row) self.old self.new }
    {
        if let Some(row) = row {
            self.add(row);
        }
    }
}

// How many amounts of a row are rounded.
fn rounded_count(row: Row) -> u32
    ensures { result ≡ rounded_count row }
{
    match row.scope {
        Scope::CashOnlyLines => 0,
        _ => 2,
    }
}

// Writes a row, where there is a place for it.
fn write_at(rows: &mut [Row], place: usize, row: Row)
    ensures { rows.new ≡ slice_set rows.old place row }
{
    // By its index: what `get_mut` leaves is not known.
    if place < rows.len() {
        rows[place] = row;
    }
}
