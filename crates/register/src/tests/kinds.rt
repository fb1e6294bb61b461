//! Three kinds of record, one for each kind of key but `u8`.
use crate::record::Record;

#[derive(Clone, Copy, PartialEq)]
pub struct Line {
    pub reference: u32,
    pub titles: u32,
}

impl Record for Line {
    type Key = u32;

    ghost key_of = { λ l. l.reference };

    fn key(&self) -> u32 {
        self.reference
    }
}

#[derive(Clone, Copy)]
pub struct Price {
    pub isin: [u8; 12],
    pub price: u32,
}

impl Record for Price {
    type Key = [u8; 12];

    ghost key_of = { λ p. p.isin };

    fn key(&self) -> [u8; 12] {
        self.isin
    }
}

#[derive(Clone, Copy)]
pub struct Point {
    pub term: u16,
    pub rate: u32,
}

impl Record for Point {
    type Key = u16;

    ghost key_of = { λ p. p.term };

    fn key(&self) -> u16 {
        self.term
    }
}
