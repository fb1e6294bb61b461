//! Sample runs, whose positions go over their ISINs in turn.
use crate::sample::{STEP, TODAY, sample_isin, sample_reference};
use std::alloc::{AllocError, Global};
use std::fmt::Write;

/// How much a run holds; each position has a note, which is skipped.
#[derive(Clone, Copy)]
pub struct Size {
    pub positions: u32,
    pub prices: u32,
    pub points: u32,
    note: &'static str,
}

pub(crate) const TYPICAL: Size = Size {
    positions: 60,
    prices: 20,
    points: 12,
    note: "",
};

/// As much as a run takes; the notes bring it close to 65,536 bytes.
pub(crate) const LIMITS: Size = Size {
    positions: 1_024,
    prices: 256,
    points: 64,
    note: "settled later",
};

fn remainder(number: u32, divisor: u32) -> u32 {
    number.checked_rem(divisor).unwrap_or(0)
}

fn write_day(run: &mut String) -> Result<(), AllocError> {
    let next = TODAY + 1;
    write!(
        run,
        "DAY;1\nTODAY;NEXT;MODE;CURVE\n{TODAY};{next};N;L\nEND;1\n"
    )?;
    write!(
        run,
        "PAR;1\nTRANCHE;PCT\n1;50\n2;100\n3;150\n4;200\n5;400\n6;800\nEND;6\n"
    )
}

// The last point has the longest term.
fn write_points(run: &mut String, points: u32) -> Result<(), AllocError> {
    write!(run, "CRV;1\nTERM;RATE\n")?;
    for point in 1..=points {
        let term = (372 * u64::from(point))
            .checked_div(u64::from(points))
            .unwrap_or(0);
        let rate = 200 + point % 100;
        write!(run, "{term};{rate}\n")?;
    }
    write!(run, "END;{points}\n")
}

fn write_prices(run: &mut String, prices: u32) -> Result<(), AllocError> {
    write!(run, "PRC;1\nISIN;PRICE;MATURITY\n")?;
    for number in 0..prices {
        let isin = sample_isin(number);
        let price = 950_000 + number % 100_000;
        let maturity = u32::from(TODAY) + number.wrapping_mul(STEP) % 10_000;
        write!(run, "{isin};{price};{maturity}\n")?;
    }
    write!(run, "END;{prices}\n")
}

// Of ten positions seven are trades.
fn write_position(run: &mut String, size: Size, place: u32) -> Result<(), AllocError> {
    let reference = sample_reference(place, size.positions);
    let isin = sample_isin(remainder(place, size.prices));
    let side = if place % 2 == 0 { 'B' } else { 'S' };
    let titles = 1 + place.wrapping_mul(STEP) % 100_000;
    let cash = 100_000 * u64::from(titles);
    let settlement = u32::from(TODAY) + place % 366;
    let note = size.note;
    match place % 10 {
        7 => write!(
            run,
            "{reference};{isin};{side};F;{titles};{cash};{TODAY};{note}\n"
        ),
        8 => write!(
            run,
            "{reference};{isin};{side};H;{titles};{cash};{TODAY};{note}\n"
        ),
        9 => write!(run, "{reference};{isin};{side};C;0;{cash};{TODAY};{note}\n"),
        _ => write!(
            run,
            "{reference};{isin};{side};T;{titles};{cash};{settlement};{note}\n"
        ),
    }
}

/// The five sheets of a sample run.
pub(crate) fn sample_run(alloc: Global, size: Size) -> Result<String, AllocError> {
    let mut run = String::new(alloc);
    write_day(&mut run)?;
    write_points(&mut run, size.points)?;
    write_prices(&mut run, size.prices)?;
    write!(run, "POS;1\nREF;ISIN;SIDE;BLOCK;TITLES;CASH;DATE;NOTE\n")?;
    for place in 0..size.positions {
        write_position(&mut run, size, place)?;
    }
    let positions = size.positions;
    write!(run, "END;{positions}\n")?;
    Ok(run)
}
