//! Netting rules: the titles that a position of bought and sold titles is charged for.
#![tactic(auto)]

ghost use Rattle.std.specs.Prelude.{◌≡◌, ℕ, ◌+◌, ◌≤◌};
ghost use Rattle.quantities.specs.Ranges.{most_titles};
ghost use Rattle.netting.specs.Rules.{Netting, net, gross, both_sides};
ghost use Rattle.std.proofs.Common.{rules};

use quantities::range::Titles;

/// Titles bought and sold, at most 2,000,000 together.
#[derive(Clone, Copy, PartialEq, Eq, Debug)]
pub struct Position {
    pub bought: Titles,
    pub sold: Titles,
    ghost together: { bought.count + sold.count ≤ most_titles },
}

/// A rule means one number of charged titles for each pair of bought and sold titles.
pub trait NettingRule {
    ghost charged: { Self → ℕ → ℕ → ℕ };

    /// The titles charged.
    fn charge(&self, position: Position) -> Titles
        ensures answer { result.count ≡ charged self.now position.bought.count position.sold.count }
        ensures unchanged { self.exit.now ≡ self.entry.now };

    ghost nets: { (rule : Self) → Netting (charged rule) };
}

/// Bought titles net off sold ones.
#[derive(Clone, Copy, PartialEq, Eq, Debug)]
pub struct Net;

impl NettingRule for Net {
    ghost charged = { λ _. net };

    ghost nets = { Prim.search rules };

    fn charge(&self, position: Position) -> Titles {
        Titles {
            count: position.bought.count.abs_diff(position.sold.count),
        }
    }
}

/// The larger side is charged.
#[derive(Clone, Copy, PartialEq, Eq, Debug)]
pub struct Gross;

impl NettingRule for Gross {
    ghost charged = { λ _. gross };

    ghost nets = { Prim.search rules };

    fn charge(&self, position: Position) -> Titles {
        Titles {
            count: position.bought.count.max(position.sold.count),
        }
    }
}

/// Both sides are charged.
#[derive(Clone, Copy, PartialEq, Eq, Debug)]
pub struct BothSides;

impl NettingRule for BothSides {
    ghost charged = { λ _. both_sides };

    ghost nets = { Prim.search rules };

    fn charge(&self, position: Position) -> Titles {
        Titles {
            count: position.bought.count + position.sold.count,
        }
    }
}

#[cfg(test)]
mod tests;
