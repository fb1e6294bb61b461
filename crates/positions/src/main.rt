//! Reads one sheet of positions from standard input, and prints the parts of each line.
#![tactic(auto)]

mod listing;
mod program;
#[cfg(test)]
mod tests;

use crate::program::respond;
use std::io;

fn main(rt: HostRuntime) -> io::Result<()> {
    respond(rt.alloc(), &mut rt.stdin(), &mut rt.stdout())
}
