//! How an amount or a refusal is printed.
use quantities::refusal::Refusal;
use std::fmt::Display;
use std::io;

/// A named amount on a line of its own.
pub(crate) fn show(rt: &impl Print, name: &str, amount: impl Display + Drop) -> io::Result<()> {
    println!(rt; "{name:<44}{amount:>16}")
}

/// A refusal, by its number, on a line of its own.
pub(crate) fn show_refusal(rt: &impl Print, name: &str, refusal: Refusal) -> io::Result<()> {
    let number = refusal.number();
    println!(rt; "{name:<44}      refused {number:>2}: {refusal}")
}
