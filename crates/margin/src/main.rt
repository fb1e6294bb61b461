//! Reads a run from standard input, and prints its statement or why it is refused.
#![tactic(auto)]

use crate::program::respond;
use crate::request::Request;
use std::process::ExitCode;
use std::{env, io};

mod explain;
mod program;
mod request;
mod spot;
#[cfg(test)]
mod tests;
mod words;

fn main(rt: HostRuntime) -> io::Result<ExitCode> {
    let words: Vec<String> = env::args(&rt)?.skip(1).collect(rt.alloc())?;
    let request = Request::of_words(words.as_slice());
    respond(
        rt.alloc(),
        request,
        &mut rt.stdin(),
        &mut rt.stdout(),
        &mut rt.stderr(),
    )
}
