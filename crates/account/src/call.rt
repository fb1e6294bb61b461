//! What a book is asked, and what it answers.
ghost use Rattle.std.specs.Prelude.{Some};
ghost use Rattle.account.specs.Texts.{call_text};

use crate::line::Line;
use crate::line_refusal::LineRefusal;
use crate::reply::Reply;
use std::fmt;

/// A call to a book.
#[derive(Clone, Copy, PartialEq, Eq, Debug)]
pub enum Call {
    Enter(Line),
    /// Takes out the line of a reference.
    Withdraw(u32),
    AskMargin,
}

/// The answer to a call.
pub type Answer = Result<Reply, LineRefusal>;

impl fmt::Display for Call {
    ghost output = { λ call. Some (call_text call) };

    #[tactic(auto, using(crate::proofs::Texts::blanks_behind))]
    fn fmt<W: fmt::Write>(&self, f: &mut fmt::Formatter<W>) -> fmt::Result {
        match *self {
            Call::Enter(line) => {
                let reference = line.reference;
                write!(f, "enter    {reference:<4}")
            }
            Call::Withdraw(reference) => write!(f, "withdraw {reference:<4}"),
            Call::AskMargin => write!(f, "margin       "),
        }
    }
}
