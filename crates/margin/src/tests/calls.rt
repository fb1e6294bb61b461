//! Calls of the program over streams in memory.
use super::memory::{Feed, Tray};
use super::sheets::{CELLS, EDITS, Edit, FURTHER_EDITS, RUN, STATEMENT};
use crate::program::{HELP, respond};
use crate::request::Request;
use run::run::MOST_BYTES;
use std::io::ErrorKind;
use std::process::{Abort, ExitCode};
use std::test::Fail;

const TOO_LONG: &str = "REFUSED;14;0;0;0;0\n";

// What a run prints on standard output and on standard error.
pub(super) fn print_run(
    rt: &(impl AllocGlobal + Abort),
    sheets: &[u8],
) -> Result<(Vec<u8>, Vec<u8>), Fail> {
    let mut input = Feed::new(sheets, 1_000);
    let mut out = Vec::new(rt.alloc());
    let mut err = Vec::new(rt.alloc());
    let status = respond(rt.alloc(), Request::Run, &mut input, &mut out, &mut err)?;
    assert_eq!(rt; status, ExitCode::SUCCESS);
    Ok((out, err))
}

fn tray(rt: &HostRuntime, room: usize) -> Tray {
    Tray {
        taken: Vec::new(rt.alloc()),
        room,
        piece: 7,
        is_interrupted: false,
    }
}

#[test]
fn a_run_prints_its_statement_and_nothing_else(rt: HostRuntime) -> Result<(), Fail> {
    let (out, err) = print_run(&rt, RUN.as_bytes())?;
    assert!(rt; out.as_slice() == STATEMENT.as_bytes());
    assert!(rt; err.is_empty());
    Ok(())
}

// Asserts that the run, edited, is refused by that line and in those words.
fn assert_refused(
    rt: &(impl AllocGlobal + Abort),
    sheets: &[u8],
    refused: &str,
    words: &str,
) -> Result<(), Fail> {
    let (out, err) = print_run(rt, sheets)?;
    let line = format!(in rt.alloc(); "{refused}\n")?;
    let told = format!(in rt.alloc(); "{words}\n")?;
    assert!(rt; out.as_slice() == line.as_bytes(), "{refused}");
    assert!(rt; err.as_slice() == told.as_bytes(), "{words}");
    Ok(())
}

#[test]
fn each_refusal_is_one_line_and_told_in_words(rt: HostRuntime) -> Result<(), Fail> {
    for Edit {
        old,
        new,
        refused,
        words,
    } in EDITS {
        let sheets = RUN.replacen(rt.alloc(), old, new, 1)?;
        assert_refused(&rt, sheets.as_bytes(), refused, words)?;
    }
    Ok(())
}

#[test]
fn each_cell_that_does_not_fit_is_told(rt: HostRuntime) -> Result<(), Fail> {
    for Edit {
        old,
        new,
        refused,
        words,
    } in CELLS {
        let sheets = RUN.replacen(rt.alloc(), old, new, 1)?;
        assert_refused(&rt, sheets.as_bytes(), refused, words)?;
    }
    Ok(())
}

#[test]
fn further_refusals_are_told(rt: HostRuntime) -> Result<(), Fail> {
    for Edit {
        old,
        new,
        refused,
        words,
    } in FURTHER_EDITS {
        let sheets = RUN.replacen(rt.alloc(), old, new, 1)?;
        assert_refused(&rt, sheets.as_bytes(), refused, words)?;
    }
    Ok(())
}

// The run, as long as it is wanted by the name of a column that is not needed.
fn run_of_len(rt: &HostRuntime, len: usize) -> Result<String, Fail> {
    let mut name = String::from_str(rt.alloc(), "TRADED")?;
    for _ in RUN.len()..len {
        name.push('x')?;
    }
    Ok(RUN.replacen(rt.alloc(), "TRADED", name.as_str(), 1)?)
}

#[test]
fn an_input_of_65_536_bytes_is_a_run_and_one_byte_more_is_too_long(
    rt: HostRuntime,
) -> Result<(), Fail> {
    let most = run_of_len(&rt, MOST_BYTES)?;
    assert_eq!(rt; most.len(), MOST_BYTES);
    let (out, _) = print_run(&rt, most.as_bytes())?;
    assert!(rt; out.as_slice() == STATEMENT.as_bytes());
    let more = run_of_len(&rt, MOST_BYTES + 1)?;
    let (out, err) = print_run(&rt, more.as_bytes())?;
    assert!(rt; out.as_slice() == TOO_LONG.as_bytes());
    assert!(rt; err.as_slice() == "the run has more than 65,536 bytes\n".as_bytes());
    Ok(())
}

#[test]
fn of_a_longer_input_one_byte_more_is_read(rt: HostRuntime) -> Result<(), Fail> {
    let bytes = [b'x'; 70_000];
    let mut input = Feed::new(&bytes, 5_000);
    let mut out = Vec::new(rt.alloc());
    let mut err = Vec::new(rt.alloc());
    respond(rt.alloc(), Request::Run, &mut input, &mut out, &mut err)?;
    assert!(rt; out.as_slice() == TOO_LONG.as_bytes());
    assert_eq!(rt; input.given, MOST_BYTES + 1);
    Ok(())
}

#[test]
fn a_read_that_fails_is_passed_on_and_nothing_is_printed(rt: HostRuntime) -> Result<(), Fail> {
    for len in [0, 1, 200, RUN.len()] {
        let mut input = Feed::new(RUN.as_bytes().get(..len).ok_or("too long")?, 64);
        input.error = Some(ErrorKind::ConnectionReset);
        let mut out = Vec::new(rt.alloc());
        let mut err = Vec::new(rt.alloc());
        let answer = respond(rt.alloc(), Request::Run, &mut input, &mut out, &mut err);
        assert!(rt; answer.is_err_and(|error| error.kind() == ErrorKind::ConnectionReset));
        assert!(rt; out.is_empty() && err.is_empty());
    }
    Ok(())
}

#[test]
fn an_output_that_closes_is_passed_on(rt: HostRuntime) -> Result<(), Fail> {
    for (request, text) in [(Request::Run, STATEMENT), (Request::Help, HELP)] {
        for room in [0, 1, 131] {
            let mut input = Feed::new(RUN.as_bytes(), 64);
            let mut out = tray(&rt, room);
            let mut err = Vec::new(rt.alloc());
            let answer = respond(rt.alloc(), request, &mut input, &mut out, &mut err);
            assert!(rt; answer.is_err_and(|error| error.kind() == ErrorKind::BrokenPipe));
            assert_eq!(rt; out.taken.len(), room);
            assert!(rt; text.as_bytes().starts_with(out.taken.as_slice()));
            assert!(rt; err.is_empty());
        }
    }
    Ok(())
}

#[test]
fn a_refusal_stands_in_its_line_where_its_words_cannot_be_told(
    rt: HostRuntime,
) -> Result<(), Fail> {
    let mut out = tray(&rt, 200);
    let mut err = tray(&rt, 5);
    let answer = respond(
        rt.alloc(),
        Request::Run,
        &mut Feed::new(b"DAY;2", 64),
        &mut out,
        &mut err,
    );
    assert!(rt; answer.is_err_and(|error| error.kind() == ErrorKind::BrokenPipe));
    assert!(rt; out.taken.as_slice() == "REFUSED;1;1;1;0;0\n".as_bytes());
    assert!(rt; err.taken.as_slice() == "day l".as_bytes());
    Ok(())
}

#[test]
fn the_words_of_a_call_ask_for_a_run_for_help_or_for_nothing_known(
    rt: HostRuntime,
) -> Result<(), Fail> {
    let asked: [(&[&str], Request); 8] = [
        (&[], Request::Run),
        (&["--help"], Request::Help),
        (&["-h"], Request::Help),
        (&["--help", "more"], Request::Unknown),
        (&["-h", "--help"], Request::Unknown),
        (&["run.txt"], Request::Unknown),
        (&["--HELP"], Request::Unknown),
        (&[""], Request::Unknown),
    ];
    for (words, request) in asked {
        let words: Vec<String> = words
            .iter()
            .map(|word| String::from_str(rt.alloc(), word))
            .try_collect(rt.alloc())?;
        assert_eq!(rt; Request::of_words(words.as_slice()), request);
    }
    Ok(())
}

#[test]
fn help_goes_to_the_output_and_other_words_to_the_error(rt: HostRuntime) -> Result<(), Fail> {
    for (request, status, out_text, err_text) in [
        (Request::Help, ExitCode::SUCCESS, HELP, ""),
        (
            Request::Unknown,
            ExitCode::from(2),
            "",
            "usage: margin < RUN      (margin --help tells more)\n",
        ),
    ] {
        let mut input = Feed::new(RUN.as_bytes(), 64);
        let mut out = Vec::new(rt.alloc());
        let mut err = Vec::new(rt.alloc());
        let answer = respond(rt.alloc(), request, &mut input, &mut out, &mut err)?;
        assert_eq!(rt; answer, status);
        assert!(rt; out.as_slice() == out_text.as_bytes());
        assert!(rt; err.as_slice() == err_text.as_bytes());
        assert_eq!(rt; input.given, 0);
    }
    Ok(())
}
