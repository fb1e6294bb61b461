//! What the program reads, and what it prints.
ghost use Rattle.std.specs.Prelude.{◌≡◌, IfOk, IfSome};
ghost use Rattle.std.specs.Process.{exit_status};
ghost use Rattle.streams.specs.Streams.{TakesAtMost, Prints};
ghost use Rattle.margin.specs.Requests.{status};
ghost use Rattle.margin.specs.Program.{input_outcome, outcome_text, told_of, printed, told, most_read};

use crate::explain::Explanation;
use crate::request::Request;
use run::run::{MOST_BYTES, MOST_STATEMENT, run};
use std::alloc::Global;
use std::io;
use std::io::{Read, Write};
use std::process::ExitCode;
use streams::{print, read_at_most};

const USAGE: &str = "usage: margin < RUN      (margin --help tells more)\n";

pub(crate) const HELP: &str =
    "margin: the collateral to hold ready for unsettled bond and repo lines

usage: margin < RUN

RUN is five sheets of text, one behind the other: the day (DAY), the margin percentages (PAR), the
points of the curve (CRV), the prices (PRC) and the positions (POS), in at most 65,536 bytes. Columns
are found by their names and may stand in any order; docs/FORMATS.md lists every one of them.

On standard output stands the statement: a row for each ISIN and block, the margin in cents with the
count of its rounded amounts, and the count of rows. Where the run is refused, it is one line,

    REFUSED;number;layer;line;cell;reference

and standard error says in words what was refused, and where. Both are answers, and end with status 0.
Status 1 says that reading or writing failed, and 2 that margin was called with other words.
";

// What is printed on standard output and on standard error.
#[derive(Drop)]
struct Reply {
    out: Vec<u8>,
    err: Vec<u8>,
}

// The statement of a run, or the line of its refusal and in words what is refused.
fn reply_to_run(alloc: Global, sheets: &[u8]) -> io::Result<Reply>
    ensures out { IfOk result (λ reply. reply.out.items ≡ outcome_text (input_outcome sheets.now)) }
    ensures err { IfOk result (λ reply. IfSome (told_of (input_outcome sheets.now))
        (λ text. reply.err.items ≡ text)) }
{
    let mut statement = vec![in alloc; 0; MOST_STATEMENT]?;
    match run(sheets, statement.as_mut_slice()) {
        Ok(len) => {
            statement.truncate(len);
            Ok(Reply {
                out: statement,
                err: Vec::new(alloc),
            })
        }
        Err(refusal) => {
            let explanation = Explanation { sheets, refusal };
            let line = format!(in alloc; "{refusal}\n")?;
            let words = format!(in alloc; "{explanation}\n")?;
            Ok(Reply {
                out: line.into_bytes(),
                err: words.into_bytes(),
            })
        }
    }
}

fn reply_to_call<R: Read>(alloc: Global, request: Request, input: &mut R) -> io::Result<Reply>
    ensures out { IfOk result (λ reply. IfSome (printed request (R.remaining input.old))
        (λ text. reply.out.items ≡ text)) }
    ensures err { IfOk result (λ reply. IfSome (told request (R.remaining input.old))
        (λ text. reply.err.items ≡ text)) }
    ensures read { TakesAtMost (most_read request) (R.remaining input.old) (R.remaining input.new) }
{
    match request {
        Request::Run => {
            // One byte more shows that a longer input has too many.
            let sheets = read_at_most(alloc, input, MOST_BYTES + 1)?;
            reply_to_run(alloc, sheets.as_slice())
        }
        Request::Help => Ok(Reply {
            out: Vec::from_slice(alloc, HELP.as_bytes())?,
            err: Vec::new(alloc),
        }),
        Request::Unknown => Ok(Reply {
            out: Vec::new(alloc),
            err: Vec::from_slice(alloc, USAGE.as_bytes())?,
        }),
    }
}

fn show<O: Write, E: Write>(reply: &Reply, out: &mut O, err: &mut E) -> io::Result<()>
    ensures out { Prints (O.contents out.old) (O.contents out.new) reply.now.out.items result }
    ensures err { Prints (E.contents err.old) (E.contents err.new) reply.now.err.items result }
{
    print(out, reply.out.as_slice())?;
    print(err, reply.err.as_slice())
}

/// Answers a call of the program, with its exit status.
pub fn respond<R: Read, O: Write, E: Write>(
    alloc: Global,
    request: Request,
    input: &mut R,
    out: &mut O,
    err: &mut E,
) -> io::Result<ExitCode>
    ensures printed { IfSome (printed request (R.remaining input.old))
        (λ text. Prints (O.contents out.old) (O.contents out.new) text result) }
    ensures told { IfSome (told request (R.remaining input.old))
        (λ text. Prints (E.contents err.old) (E.contents err.new) text result) }
    ensures read { TakesAtMost (most_read request) (R.remaining input.old) (R.remaining input.new) }
    ensures status { IfOk result (λ code. exit_status code ≡ status request) }
{
    let reply = reply_to_call(alloc, request, input)?;
    show(&reply, out, err)?;
    Ok(request.status())
}
