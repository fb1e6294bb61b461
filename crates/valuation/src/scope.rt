//! The lines that a row is worked on.
ghost use Rattle.valuation.specs.Scopes.{whole_scope, settles_in, is_in_scope};
ghost use Rattle.std.specs.Prelude.{◌≡◌};

use crate::basis::Basis;
use account::block::Block;
use account::block_name::BlockName;
use account::line::Line;
use account::scenario::Scenario;
use account::scope::Scope;
use quantities::date::Date;

/// The scope that leaves no line of a block out.
pub(crate) fn whole_scope(block: BlockName) -> Scope
    ensures { result ≡ whole_scope block }
{
    match block {
        BlockName::Trade => Scope::Trades(Scenario::AllTrades),
        BlockName::Failed => Scope::FailedLines,
        BlockName::Held => Scope::HeldLines,
        BlockName::CashOnly => Scope::CashOnlyLines,
    }
}

// Whether a trade of that date takes part in a scenario.
fn settles_in<B: Basis>(basis: &B, scenario: Scenario, date: Date) -> bool
    ensures { result ≡ settles_in (B.setting basis.now) scenario date }
{
    // A match on the three scenarios as they are defined.
    match scenario {
        Scenario::AllTrades => true,
        Scenario::WithoutToday => date != basis.today(),
        Scenario::AfterNext => date > basis.next(),
    }
}

/// Whether a line is of the block of a row and takes part in it.
pub(crate) fn is_in_scope<B: Basis>(basis: &B, scope: Scope, line: &Line) -> bool
    ensures { result ≡ is_in_scope (B.setting basis.now) scope line.now }
{
    match (scope, line.block) {
        (Scope::Trades(scenario), Block::Trade(date)) => settles_in(basis, scenario, date),
        (Scope::FailedLines, Block::Failed(_)) => true,
        (Scope::HeldLines, Block::Held(_)) => true,
        (Scope::CashOnlyLines, Block::CashOnly(_)) => true,
        _ => false,
    }
}
