//! Whole runs, and calls of the program.
mod calls;
mod large;
mod memory;
mod sheets;

use run::refusal::RunRefusal;
use run::run::run;
use sheets::{RUN, SHUFFLED, STATEMENT};
use std::process::Abort;
use std::test::Fail;

// How a run of the sheets is refused; the buffer must stay as it was.
fn refusal_of(rt: &impl Abort, sheets: &[u8]) -> Option<RunRefusal> {
    let mut buffer = [b'#'; 200];
    let refusal = run(sheets, &mut buffer).err()?;
    assert!(rt; buffer.iter().all(|byte| *byte == b'#'));
    Some(refusal)
}

// Asserts that the sheets give the statement, at the front of a longer buffer.
fn assert_states(rt: &impl Abort, sheets: &str, statement: &str) {
    let mut buffer = [b'#'; 200];
    assert_eq!(rt; run(sheets.as_bytes(), &mut buffer), Ok(statement.len()));
    assert!(rt; buffer.starts_with(statement.as_bytes()));
    assert!(rt;
        buffer
            .iter()
            .skip(statement.len())
            .all(|byte| *byte == b'#')
    );
}

#[test]
fn the_run_gives_its_statement_to_the_byte(rt: HostRuntime) -> Result<(), Fail> {
    assert_states(&rt, RUN, STATEMENT);
    assert_states(&rt, SHUFFLED, STATEMENT);
    let gross = RUN.replacen(rt.alloc(), "N;S", "G;S", 1)?;
    let scenario = STATEMENT.replacen(rt.alloc(), "T;3", "T;1", 1)?;
    assert_states(&rt, gross.as_str(), scenario.as_str());
    Ok(())
}

#[test]
fn an_account_without_positions_has_margin_0(rt: HostRuntime) -> Result<(), Fail> {
    let (before, _) = RUN.split_once("1;ES0000001018;B;T").ok_or("no position")?;
    let sheets = format!(in rt.alloc(); "{before}END;0\n")?;
    assert_states(
        &rt,
        sheets.as_str(),
        "STM;1\nISIN;BLOCK;SCEN;IM;VM\nTOTAL;0;0\nEND;0\n",
    );
    Ok(())
}

#[test]
fn a_buffer_has_room_from_the_length_on(rt: HostRuntime) {
    let mut buffer = [b'#'; 132];
    assert_eq!(rt; STATEMENT.len(), buffer.len());
    for short in [0, 131] {
        let refused = run(RUN.as_bytes(), &mut buffer[..short]).map_err(|e| (
            e.number(),
            e.layer(),
        ));
        assert_eq!(rt; refused, Err((14, 0)));
        assert!(rt; buffer.iter().all(|byte| *byte == b'#'));
    }
    assert_eq!(rt; run(RUN.as_bytes(), &mut buffer), Ok(132));
    assert!(rt; buffer.as_slice() == STATEMENT.as_bytes());
}

#[test]
fn a_run_that_is_cut_is_refused_as_a_sheet(rt: HostRuntime) -> Result<(), Fail> {
    let bytes = RUN.as_bytes();
    for len in 0..bytes.len() {
        let refusal = refusal_of(&rt, &bytes[..len]).ok_or("no refusal")?;
        assert_eq!(rt; refusal.layer(), 1);
    }
    Ok(())
}
