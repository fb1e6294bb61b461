//! A day with its prices and margin percentages, in lent memory.
ghost use Rattle.std.specs.Prelude.{◌≡◌, ◌≢◌, ◌≤◌, IsTrue, Err, [], length};
ghost use Rattle.market.specs.Contents.{percentage_for};
ghost use Rattle.market.specs.Days.{is_next_day};
ghost use Rattle.market.specs.Records.{isin_rank, price_rank, percentage_rank};
ghost use Rattle.register.specs.Changes.{insert_answer, insert_after};
ghost use Rattle.register.specs.Contents.{room_in};
ghost use Rattle.register.specs.Keys.{Ascends, found_by};
ghost use Rattle.register.specs.Search.{guess_after};

use crate::day::Day;
use crate::percentage::Percentage;
use crate::price::Price;
use quantities::date::Date;
use quantities::isin::Isin;
use quantities::range::MarginPercentage;
use quantities::refusal::Refusal;
use quantities::tranche::Tranche;
use register::register::Register;
use std::marker::Model;

/// A day, its prices ascending by ISIN and its percentages by tranche.
#[derive(Drop)]
pub struct Market<'a> {
    day: Day,
    prices: Register<'a, Price>,
    percentages: Register<'a, Percentage>,
}

// A clause sees the two dates, the prices and percentages, and how many prices there may be.
impl<'a> Model for Market<'a> {
    ghost use Rattle.std.specs.Prelude.{◌≡◌};
    ghost use Rattle.market.specs.Contents.{Quotes};

    ghost Value = { Quotes };

    ghost view = { λ m. record {
      today = m.day.today;
      next = m.day.next;
      prices = m.prices.records;
      percentages = m.percentages.records;
      room = m.prices.room;
    } };

    ghost invariant = { λ m. m.percentages.room ≡ 6 };
}

impl<'a> Market<'a> {
    /// A day without prices and percentages, over memory for them.
    pub fn new(day: Day, prices: &'a mut [Price], percentages: &'a mut [Percentage; 6]) -> Self
        ensures today { result.today ≡ day.today }
        ensures next { result.next ≡ day.next }
        ensures unpriced { result.prices ≡ [] }
        ensures unranked { result.percentages ≡ [] }
        ensures room { result.room ≡ room_in (length prices.old) }
    {
        let prices = Register::new(prices);
        let percentages = Register::new(percentages);
        Market {
            day,
            prices,
            percentages,
        }
    }

    /// Today.
    pub fn today(&self) -> Date
        ensures { result ≡ self.now.today }
    {
        self.day.today
    }

    /// The business day after today.
    pub fn next(&self) -> Date
        ensures is { result ≡ self.now.next }
        ensures after { IsTrue (is_next_day self.now.today self.now.next) }
    {
        self.day.next
    }

    /// The prices by ISIN.
    pub fn prices(&self) -> &[Price]
        ensures all { result.now ≡ self.now.prices }
        ensures ascends { Ascends price_rank self.now.prices }
        ensures within { length self.now.prices ≤ self.now.room }
        ensures few { self.now.room ≤ 65535 }
    {
        self.prices.records()
    }

    /// The percentages by tranche.
    pub fn percentages(&self) -> &[Percentage]
        ensures all { result.now ≡ self.now.percentages }
        ensures ascends { Ascends percentage_rank self.now.percentages }
        ensures few { length self.now.percentages ≤ 6 }
    {
        self.percentages.records()
    }

    /// Puts a price in by its ISIN; refuses an ISIN that has a price, then one without a place.
    pub fn add_price(&mut self, price: Price) -> Result<(), Refusal>
        ensures answer { result ≡ insert_answer price_rank self.old.room price self.old.prices }
        ensures after { self.new ≡ record self.old {
          prices = insert_after price_rank self.old.room price self.old.prices;
        } }
        ensures ascends { Ascends price_rank self.new.prices }
    {
        self.prices.insert(price)
    }

    /// Puts a percentage in by its tranche; refuses a tranche that has one. A place is always free.
    pub fn add_percentage(&mut self, percentage: Percentage) -> Result<(), Refusal>
        ensures answer { result ≡ insert_answer percentage_rank 6 percentage self.old.percentages }
        ensures after { self.new ≡ record self.old {
          percentages = insert_after percentage_rank 6 percentage self.old.percentages;
        } }
        ensures ascends { Ascends percentage_rank self.new.percentages }
        ensures never_full { result ≢ Err Refusal.Full }
    {
        self.percentages.insert(percentage)
    }

    /// The price of an ISIN.
    pub fn price_of(&self, isin: Isin) -> Option<Price>
        ensures { result ≡ found_by price_rank (isin_rank isin) self.now.prices }
    {
        self.prices.find(isin.bytes).copied()
    }

    /// The same. A guess of the price's place is looked at first, and moves behind the price that
    /// is found.
    pub fn price_near(&self, guess: &mut usize, isin: Isin) -> Option<Price>
        ensures found { result ≡ found_by price_rank (isin_rank isin) self.now.prices }
        ensures moved { guess.new
            ≡ guess_after price_rank (isin_rank isin) self.now.prices guess.old }
    {
        self.prices.find_near(guess, isin.bytes).copied()
    }

    /// The percentage for a residual life in days, which is that of its tranche.
    pub fn percentage_for(&self, life: u16) -> Option<MarginPercentage>
        ensures { result ≡ percentage_for life self.now.percentages }
    {
        let tranche = Tranche::of_life(life);
        self.percentages
            .find(u8::from(tranche))
            .map(|found| found.percentage)
    }
}
