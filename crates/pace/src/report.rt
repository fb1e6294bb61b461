//! What is printed of the times.
use crate::book_pace::{BookPace, time_book};
use crate::run_pace::{RunPace, time_run};
use crate::run_sample::{LIMITS, Size, TYPICAL, sample_run};
use std::io;

// Each size of a book is sixteen times the one before it.
const BOOK_SIZES: [u32; 3] = [64, 1_024, 16_384];

// Ratios are printed from the second size on.
fn show_book_pace(rt: &impl Print, pace: BookPace, before: Option<BookPace>) -> io::Result<()> {
    let lines = pace.lines;
    let line = pace.micros_a_line();
    let margin = pace.millis_a_margin();
    match before {
        Some(before) => {
            let line_ratio = line / before.micros_a_line();
            let margin_ratio = margin / before.millis_a_margin();
            println!(rt;
                "{lines:>8}{line:>22.3}{margin:>24.3}   line {line_ratio:.1}, margin {margin_ratio:.1}"
            )
        }
        None => println!(rt; "{lines:>8}{line:>22.3}{margin:>24.3}"),
    }
}

/// What entering a line and asking a margin cost, at three sizes of a book.
pub(crate) fn show_book_paces(rt: &HostRuntime) -> io::Result<()> {
    println!(rt;
        "   lines   microseconds a line   milliseconds a margin   ratios to the size before"
    )?;
    let mut before = None;
    for lines in BOOK_SIZES {
        match time_book(rt, lines)? {
            Ok(pace) => {
                show_book_pace(rt, pace, before)?;
                before = Some(pace);
            }
            Err(refusal) => {
                let number = refusal.number();
                println!(rt; "{lines:>8}   refused {number}: {refusal}")?;
            }
        }
    }
    Ok(())
}

fn show_run_pace(rt: &impl Print, size: Size, pace: RunPace) -> io::Result<()> {
    let Size {
        positions,
        prices,
        points,
        ..
    } = size;
    let bytes = pace.bytes;
    let runs = pace.runs_a_second();
    let millis = pace.millis_a_run();
    let reading = pace.reading_percent();
    let margin = 100.0 - reading;
    println!(rt;
        "{positions:>9}{prices:>9}{points:>9}{bytes:>9}{runs:>16.0}{millis:>21.3}{reading:>9.0}%{margin:>8.0}%"
    )
}

/// How many runs a second are made, and what part of a run is the reading of its sheets.
pub(crate) fn show_run_paces(rt: &HostRuntime) -> io::Result<()> {
    println!(rt;
        "positions   prices   points    bytes   runs a second   milliseconds a run   reading   margin"
    )?;
    for size in [TYPICAL, LIMITS] {
        let sheets = sample_run(rt.alloc(), size)?;
        match time_run(rt, sheets)? {
            Ok(pace) => show_run_pace(rt, size, pace)?,
            Err(refusal) => println!(rt; "{refusal}")?,
        }
    }
    Ok(())
}
