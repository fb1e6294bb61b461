//! The run as a treasury system in C calls it: `include/margin.h` has the prototypes.
#![tactic(auto)]

ghost use Rattle.std.specs.Prelude.{◌≡◌, length};
ghost use Rattle.run.specs.Runs.{run};
ghost use Rattle.margin_c.specs.Answers.{answer_of, buffer_after, refusal_of};

use crate::refusal::MarginRefusal;
use run::run::run;

pub mod refusal;

/// Reads the five sheets of a run, and writes the statement of their account at the front of the
/// buffer. It answers the length of the statement. Where the run is refused, it answers minus the
/// number of the refusal, and the buffer keeps all that it held.
#[unsafe(no_mangle)]
pub extern "C" fn margin_run(sheets: &[u8], statement: &mut [u8]) -> i64
    ensures answer { result ≡ answer_of (run sheets.now (length statement.old)) }
    ensures statement { let outcome = run sheets.now (length statement.old) in
        statement.new ≡ buffer_after outcome statement.old }
{
    margin_run_told(sheets, statement, &mut MarginRefusal::none())
}

/// The same, and it also reports a refusal with its place; of a run that is accepted, all is 0.
#[unsafe(no_mangle)]
pub extern "C" fn margin_run_told(
    sheets: &[u8],
    statement: &mut [u8],
    refusal: &mut MarginRefusal,
) -> i64
    ensures answer { result ≡ answer_of (run sheets.now (length statement.old)) }
    ensures statement { let outcome = run sheets.now (length statement.old) in
        statement.new ≡ buffer_after outcome statement.old }
    ensures refusal { refusal.new ≡ refusal_of (run sheets.now (length statement.old)) }
{
    match run(sheets, statement) {
        Ok(length) => {
            *refusal = MarginRefusal::none();
            length as i64
        }
        Err(refused) => {
            *refusal = MarginRefusal::from(refused);
            refusal.answer()
        }
    }
}
