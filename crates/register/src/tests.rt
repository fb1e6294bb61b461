mod kinds;

use crate::register::Register;
use kinds::{Line, Point, Price};
use quantities::refusal::Refusal;

// The number of a refusal, and 0 of what is accepted.
fn refused<T: Drop>(answer: Result<T, Refusal>) -> u8 {
    match answer {
        Ok(_) => 0,
        Err(refusal) => refusal.number(),
    }
}

fn line(reference: u32) -> Line {
    Line {
        reference,
        titles: 10,
    }
}

fn titles_of(found: Option<&Line>) -> u32 {
    match found {
        Some(line) => line.titles,
        None => 0,
    }
}

fn price_of(found: Option<&Price>) -> u32 {
    match found {
        Some(price) => price.price,
        None => 0,
    }
}

#[test]
fn lines_ascend_and_a_refusal_leaves_them(rt: HostRuntime) {
    let mut places = [line(0); 3];
    let mut lines = Register::new(&mut places);
    assert_eq!(rt; refused(lines.insert(line(7))), 0);
    assert_eq!(rt; refused(lines.insert(line(5))), 0);
    assert_eq!(rt; refused(lines.insert(line(2))), 0);
    assert!(rt; lines.records() == [line(2), line(5), line(7)].as_slice());
    assert_eq!(rt;
        refused(lines.insert(Line {
            reference: 5,
            titles: 99,
        })),
        6
    );
    assert_eq!(rt; refused(lines.insert(line(6))), 9);
    assert!(rt; lines.records() == [line(2), line(5), line(7)].as_slice());
    assert_eq!(rt; titles_of(lines.find(5)), 10);
    assert_eq!(rt; titles_of(lines.find(6)), 0);
}

#[test]
fn a_guess_moves_behind_what_is_found(rt: HostRuntime) {
    let mut places = [line(0); 3];
    let mut lines = Register::new(&mut places);
    assert_eq!(rt; refused(lines.insert(line(2))), 0);
    assert_eq!(rt; refused(lines.insert(line(5))), 0);
    assert_eq!(rt; refused(lines.insert(line(7))), 0);
    let mut guess = 0;
    assert_eq!(rt; titles_of(lines.find_near(&mut guess, 5)), 10);
    assert_eq!(rt; guess, 2);
    assert_eq!(rt; titles_of(lines.find_near(&mut guess, 7)), 10);
    assert_eq!(rt; guess, 3);
    assert_eq!(rt; titles_of(lines.find_near(&mut guess, 6)), 0);
    assert_eq!(rt; guess, 3);
    assert_eq!(rt; titles_of(lines.find_near(&mut guess, 2)), 10);
    assert_eq!(rt; guess, 1);
}

#[test]
fn a_place_that_is_freed_is_used_again(rt: HostRuntime) {
    let italian = Price {
        isin: *b"IT0000000017",
        price: 99_000,
    };
    let german = Price {
        isin: *b"DE0000000014",
        price: 98_000,
    };
    let french = Price {
        isin: *b"FR0000000016",
        price: 97_000,
    };
    let mut places = [italian; 2];
    let mut prices = Register::new(&mut places);
    assert_eq!(rt; refused(prices.insert(italian)), 0);
    assert_eq!(rt; refused(prices.insert(german)), 0);
    assert_eq!(rt; refused(prices.insert(french)), 9);
    assert_eq!(rt; refused(prices.remove(italian.isin)), 0);
    assert_eq!(rt; refused(prices.remove(italian.isin)), 13);
    assert_eq!(rt; refused(prices.insert(french)), 0);
    assert_eq!(rt; price_of(prices.find(german.isin)), 98_000);
    assert_eq!(rt; price_of(prices.find(french.isin)), 97_000);
    assert_eq!(rt; price_of(prices.find(italian.isin)), 0);
}

#[test]
fn without_places_a_register_is_full_at_once(rt: HostRuntime) {
    let mut places: [Point; 0] = [];
    let mut points = Register::new(&mut places);
    assert_eq!(rt;
        refused(points.insert(Point {
            term: 365,
            rate: 250,
        })),
        9
    );
    assert_eq!(rt; refused(points.remove(365)), 13);
}
