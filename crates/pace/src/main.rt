//! What a book's calls and whole runs cost.
#![tactic(auto)]

use crate::report::{show_book_paces, show_run_paces};
use std::{env, io};

mod book_pace;
mod book_sample;
mod report;
mod run_pace;
mod run_sample;
mod sample;

const USAGE: &str = "usage: pace book    times a book of 64, 1,024 and 16,384 lines
       pace runs    times a run of 60 positions, and one at its limits";

fn main(rt: HostRuntime) -> io::Result<()> {
    let asked = env::args(&rt)?.nth(1);
    match asked.as_ref().map(|word| word.as_str()) {
        Some("book") => show_book_paces(&rt),
        Some("runs") => show_run_paces(&rt),
        _ => println!(&rt; "{USAGE}"),
    }
}
