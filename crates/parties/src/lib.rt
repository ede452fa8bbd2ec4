// The two accounts that a command sees. Where both are one row, what is put in one place is put in the other too.
#![tactic(auto)]

ghost use Rattle.std.specs.Prelude.{◌≡◌};
ghost use Rattle.parties.specs.Parties.{found_of, put_first, put_second, turned, let_in, side_of, settling, Settles};

use account::{Account, SeenAccount};
use refusal::Refusal;
use terms::Terms;

/// The first and the second row; `one`: both are the same.
#[derive(Clone, Copy)]
pub struct Parties {
    pub first: SeenAccount,
    pub second: SeenAccount,
    pub one: bool,
}

// The row that is there.
fn found(seen: SeenAccount) -> Result<Account, Refusal>
    ensures { result ≡ found_of seen }
{
    if seen.here {
        Ok(seen.row)
    } else {
        Err(Refusal::NotFound)
    }
}

impl Parties {
    /// A new row at the first place, and at the second where both are one.
    #[tactic(auto, unfolding(refusal::specs::Choice::pick))]
    pub fn put_first(mut self, row: Account) -> Parties
        ensures { result ≡ put_first self row }
    {
        let stored = self.first.put(row);
        self.first = stored;
        if self.one {
            self.second = stored;
        }
        self
    }

    /// A new row at the second place, and at the first where both are one.
    #[tactic(auto, unfolding(refusal::specs::Choice::pick))]
    pub fn put_second(mut self, row: Account) -> Parties
        ensures { result ≡ put_second self row }
    {
        let kept = self.second.put(row);
        self.second = kept;
        if self.one {
            self.first = kept;
        }
        self
    }

    /// A row let in at the first place.
    #[tactic(auto, unfolding(refusal::specs::Choice::pick))]
    pub fn let_in(mut self, row: Account) -> Parties
        ensures { result ≡ let_in self row }
    {
        let came = SeenAccount { here: true, row };
        self.first = came;
        if self.one {
            self.second = came;
        }
        self
    }

    /// The first, or the second.
    #[tactic(auto, unfolding(crate::specs::Parties::side_of, refusal::specs::Choice::pick))]
    pub fn side(self, first: bool) -> SeenAccount
        ensures { result ≡ side_of self first }
    {
        if first { self.first } else { self.second }
    }

    // The second as the first, and the first as the second.
    fn turned(self) -> Parties
        ensures { result ≡ turned self }
    {
        Parties {
            first: self.second,
            second: self.first,
            one: self.one,
        }
    }

    // The first pays the second.
    fn settle(self, t: Terms) -> Result<Parties, Refusal>
        ensures { result ≡ settling t self }
    {
        let paid = self.put_first(found(self.first)?.debit(t)?);
        let gained = paid.put_second(found(paid.second)?.credit(t)?);
        Ok(gained.put_first(found(gained.first)?.accept(t)?))
    }

    /// The lender pays the originator; `lends`: the first is the lender, else the second is.
    pub fn settle_by(self, t: Terms, lends: bool) -> Result<Parties, Refusal>
        ensures { Settles lends self t result }
    {
        if lends {
            return self.settle(t);
        }
        self.turned().settle(t).map(Parties::turned)
    }
}
