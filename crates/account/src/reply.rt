//! What a call comes to that is not refused.
ghost use Rattle.std.specs.Prelude.{Some};
ghost use Rattle.account.specs.Texts.{reply_text};

use crate::margin::Margin;
use std::fmt;

/// What a call that is not refused comes to.
#[derive(Clone, Copy, PartialEq, Eq, Debug)]
pub enum Reply {
    Accepted,
    Given(Margin),
}

impl fmt::Display for Reply {
    ghost output = { λ reply. Some (reply_text reply) };

    fn fmt<W: fmt::Write>(&self, f: &mut fmt::Formatter<W>) -> fmt::Result {
        match self {
            Reply::Accepted => write!(f, "accepted"),
            Reply::Given(margin) => write!(f, "{margin}"),
        }
    }
}
