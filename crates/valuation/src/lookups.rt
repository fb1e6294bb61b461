//! What has been looked up for lines.
ghost use Rattle.account.specs.Answers.{fault};
ghost use Rattle.quantities.specs.Refusals.{number};
ghost use Rattle.std.specs.Prelude.{◌≡◌, OnOk, IfErr};
ghost use Rattle.valuation.specs.Checks.{number_or_zero, quote_fault, rate_fault, IsFound};

use crate::basis::Basis;
use account::block::Block;
use account::line::Line;
use account::line_refusal::LineRefusal;
use quantities::date::term_days;
use quantities::isin::Isin;
use quantities::refusal::Refusal;

/// The ISIN whose quote was looked up last, and the longest term whose rate was, where there is
/// one: lines that come together have the same ISIN, and often the next one is that of the next
/// price.
#[derive(Clone, Copy)]
pub(crate) struct Lookups {
    isin: Option<Isin>,
    term: Option<u16>,
    next_price: usize,
}

impl Lookups {
    /// Before the first line there is neither.
    pub(crate) fn none() -> Lookups
        ensures { result ≡ record { isin = None; term = None; next_price = 0 } }
    {
        Lookups {
            isin: None,
            term: None,
            next_price: 0,
        }
    }

    // Refuses an ISIN without a quote.
    fn find_quote<B: Basis>(&mut self, basis: &B, isin: Isin) -> Result<(), Refusal>
        requires { IsFound (B.setting basis.now) self.old }
        ensures known { IsFound (B.setting basis.now) self.new }
        ensures answer { number_or_zero result ≡ quote_fault (B.setting basis.now) isin }
    {
        if self.isin.is_some_and(|known| known == isin) {
            return Ok(());
        }
        basis.quote_of(&mut self.next_price, isin)?;
        self.isin = Some(isin);
        Ok(())
    }

    // Refuses a term without a rate: where a term has one, each shorter one does.
    fn find_rate<B: Basis>(&mut self, basis: &B, term: u16) -> Result<(), Refusal>
        requires { IsFound (B.setting basis.now) self.old }
        ensures known { IsFound (B.setting basis.now) self.new }
        ensures answer { number_or_zero result ≡ rate_fault (B.setting basis.now) term }
    {
        if self.term.is_some_and(|known| term <= known) {
            return Ok(());
        }
        basis.rate_for(term)?;
        self.term = Some(term);
        Ok(())
    }

    /// The fault of a line: a cash-only line has none, and only a trade needs a rate.
    pub(crate) fn fault_of<B: Basis>(&mut self, basis: &B, line: &Line) -> Result<(), Refusal>
        requires { IsFound (B.setting basis.now) self.old }
        ensures known { IsFound (B.setting basis.now) self.new }
        ensures answer { number_or_zero result ≡ fault (B.setting basis.now) line.now }
    {
        if let Block::CashOnly(_) = line.block {
            return Ok(());
        }
        self.find_quote(basis, line.isin)?;
        if let Block::Trade(date) = line.block {
            self.find_rate(basis, term_days(basis.today(), date))?;
        }
        Ok(())
    }

    /// Refuses a line with a fault, by its reference.
    pub(crate) fn check_line<B: Basis>(&mut self, basis: &B, line: &Line) -> Result<(), LineRefusal>
        requires { IsFound (B.setting basis.now) self.old }
        ensures known { IsFound (B.setting basis.now) self.new }
        ensures ok { OnOk result (fault (B.setting basis.now) line.now ≡ 0) }
        ensures refusal { IfErr result (λ r.
            number r.refusal ≡ fault (B.setting basis.now) line.now) }
        ensures reference { IfErr result (λ r. r.reference ≡ line.now.reference) }
    {
        self.fault_of(basis, line).map_err(|refusal| LineRefusal {
            refusal,
            reference: line.reference,
        })
    }
}
