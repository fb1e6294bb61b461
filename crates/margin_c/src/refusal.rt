//! A refusal as C has it.
ghost use Rattle.std.specs.Prelude.{◌≡◌, pos, neg_ℤ};
ghost use Rattle.run.specs.Refusals.{placed_refusal};
ghost use Rattle.margin_c.specs.Refusals.{no_refusal, refusal_for_c};

use run::refusal::RunRefusal;

/// A refusal and its place; what does not apply is 0.
#[repr(C)]
#[derive(Clone, Copy, PartialEq, Eq, Debug)]
pub struct MarginRefusal {
    /// The number of the refusal.
    pub number: u8,
    /// What refuses: 0 the run, 1 its sheets, 2 the book, 3 the margin.
    pub layer: u8,
    /// The line, counted from 1 over the whole input.
    pub line: usize,
    /// The cell, counted from 1.
    pub cell: usize,
    /// The reference of a position.
    pub reference: u32,
}

impl MarginRefusal {
    /// What is reported of a run that is accepted.
    pub fn none() -> MarginRefusal
        ensures { result ≡ no_refusal }
    {
        MarginRefusal {
            number: 0,
            layer: 0,
            line: 0,
            cell: 0,
            reference: 0,
        }
    }

    /// What a run that is refused answers: minus the number.
    pub fn answer(&self) -> i64
        ensures { result ≡ neg_ℤ (pos self.now.number) }
    {
        -i64::from(self.number)
    }
}

impl From<RunRefusal> for MarginRefusal {
    ghost from_gives = { λ refused given. given ≡ refusal_for_c (placed_refusal refused) };

    fn from(refused: RunRefusal) -> MarginRefusal {
        MarginRefusal {
            number: refused.number(),
            layer: refused.layer(),
            line: refused.line(),
            cell: refused.cell(),
            reference: refused.reference(),
        }
    }
}
