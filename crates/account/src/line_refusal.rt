//! Why a line is refused.
ghost use Rattle.std.specs.Prelude.{◌≡◌, Some};
ghost use Rattle.account.specs.Texts.{line_refusal_text};

use quantities::refusal::Refusal;
use std::fmt;

/// A refusal, and the reference of the line that it is about.
#[derive(Clone, Copy, PartialEq, Eq, Debug)]
pub struct LineRefusal {
    pub refusal: Refusal,
    pub reference: u32,
}

impl LineRefusal {
    /// What is refused of the line of a reference.
    pub fn of_line(reference: u32, refusal: Refusal) -> LineRefusal
        ensures refusal { result.refusal ≡ refusal }
        ensures reference { result.reference ≡ reference }
    {
        LineRefusal { refusal, reference }
    }
}

impl fmt::Display for LineRefusal {
    ghost output = { λ refused. Some (line_refusal_text refused) };

    fn fmt<W: fmt::Write>(&self, f: &mut fmt::Formatter<W>) -> fmt::Result {
        let number = self.refusal.number();
        let reference = self.reference;
        let refusal = self.refusal;
        write!(f, "refused {number}, reference {reference}: {refusal}")
    }
}
