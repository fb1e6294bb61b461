//! A call with the place of its answer.
ghost use Rattle.std.specs.Prelude.{◌≡◌};

use crate::call::{Answer, Call};

/// A call, and the place of its answer.
#[derive(Clone, Copy, PartialEq, Eq, Debug)]
pub struct Slot {
    pub call: Call,
    pub answer: Option<Answer>,
}

impl Slot {
    /// A call that is not answered yet.
    pub fn asked(call: Call) -> Slot
        ensures call { result.call ≡ call }
        ensures unanswered { result.answer ≡ None }
    {
        Slot { call, answer: None }
    }
}
