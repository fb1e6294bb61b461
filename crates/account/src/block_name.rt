//! The names of the blocks.
ghost use Rattle.account.specs.Lines.{block_name, dated_block};
ghost use Rattle.std.specs.Prelude.{◌≡◌};

use crate::block::Block;
use quantities::date::Date;

/// The name of a block, which says nothing of a date.
#[derive(Clone, Copy, PartialEq, Eq, Debug)]
pub enum BlockName {
    Trade,
    Failed,
    Held,
    CashOnly,
}

/// The block in which a line stands.
impl From<Block> for BlockName {
    ghost from_gives = { λ block name. name ≡ block_name block };

    fn from(block: Block) -> BlockName {
        match block {
            Block::Trade(_) => BlockName::Trade,
            Block::Failed(_) => BlockName::Failed,
            Block::Held(_) => BlockName::Held,
            Block::CashOnly(_) => BlockName::CashOnly,
        }
    }
}

impl BlockName {
    /// The block of that name, with a date.
    pub fn with_date(self, date: Date) -> Block
        ensures { result ≡ dated_block self date }
    {
        match self {
            BlockName::Trade => Block::Trade(date),
            BlockName::Failed => Block::Failed(date),
            BlockName::Held => Block::Held(date),
            BlockName::CashOnly => Block::CashOnly(date),
        }
    }
}
