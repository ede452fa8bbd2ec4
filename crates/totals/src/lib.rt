// The book's own totals: what was financed, repaid and taken in fees, and how many offers there are.
#![tactic(auto)]

ghost use Rattle.std.specs.Prelude.{◌≡◌};
ghost use Rattle.refusal.specs.Rule.{outcome};
ghost use Rattle.totals.specs.Totals.{no_totals, totals_sound, count_of, finance_of, repay_of};

use refusal::Refusal;
use terms::Terms;

#[derive(Clone, Copy)]
pub struct Totals {
    pub financed: i64,
    pub repaid: i64,
    pub fees: i64,
    pub offers: u32,
}

impl Totals {
    // One offer more.
    pub fn count(mut self) -> Result<Totals, Refusal>
        ensures { result ≡ outcome (count_of self) }
    {
        if money::COUNT_LIMIT <= self.offers {
            return Err(Refusal::OutOfRange);
        }
        self.offers += 1;
        Ok(self)
    }

    // A settled amount is financed.
    pub fn finance(mut self, t: Terms) -> Result<Totals, Refusal>
        ensures { result ≡ outcome (finance_of self t) }
    {
        self.financed = money::shift(self.financed, t.amount).ok_or(Refusal::OutOfRange)?;
        Ok(self)
    }

    // Repayment adds both amounts, which may be below 0, to the repaid and fee totals.
    pub fn repay(mut self, allowed: bool, amount: i64, fee: i64) -> Result<Totals, Refusal>
        ensures { result ≡ outcome (repay_of self allowed amount fee) }
    {
        if !allowed {
            return Err(Refusal::Unauthorized);
        }
        self.repaid = money::shift(self.repaid, amount).ok_or(Refusal::OutOfRange)?;
        self.fees = money::shift(self.fees, fee).ok_or(Refusal::OutOfRange)?;
        Ok(self)
    }

    // Whether each total and the count are in range.
    #[tactic(auto, unfolding(crate::specs::Totals::totals_sound))]
    pub fn sound(self) -> bool
        ensures { result ≡ totals_sound self }
    {
        money::in_total_range(self.financed)
            & money::in_total_range(self.repaid)
            & money::in_total_range(self.fees)
            & (self.offers <= money::COUNT_LIMIT)
    }

    // The totals of a fresh book.
    pub fn none() -> Totals
        ensures { result ≡ no_totals }
    {
        Totals {
            financed: 0,
            repaid: 0,
            fees: 0,
            offers: 0,
        }
    }
}
