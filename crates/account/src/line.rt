//! The lines of an account.
ghost use Rattle.std.specs.Prelude.{◌≡◌};
ghost use Rattle.account.specs.Lines.{free_line, is_in_block};

use crate::block::Block;
use crate::block_name::BlockName;
use crate::side::Side;
use quantities::isin::Isin;
use register::record::Record;

/// A line as it is handed.
#[derive(Clone, Copy, PartialEq, Eq, Debug)]
pub struct Line {
    pub reference: u32,
    pub isin: Isin,
    pub side: Side,
    pub titles: u32,
    pub cash: u64,
    pub block: Block,
}

/// Lines go by their reference.
impl Record for Line {
    type Key = u32;

    ghost key_of = { λ l. l.reference };

    fn key(&self) -> u32 {
        self.reference
    }
}

impl Line {
    /// Whether the line is of an ISIN and block.
    pub fn is_in_block(&self, isin: Isin, block: BlockName) -> bool
        ensures { result ≡ is_in_block isin block self.now }
    {
        self.isin == isin && BlockName::from(self.block) == block
    }
}

/// What a free place for a line may hold: a reference under which no line stands.
impl Default for Line {
    ghost is_default = { λ l. l ≡ free_line };

    fn default() -> Line {
        Line {
            reference: 0,
            isin: Isin { bytes: [0; 12] },
            side: Side::Bought,
            titles: 0,
            cash: 0,
            block: Block::Trade(0),
        }
    }
}
