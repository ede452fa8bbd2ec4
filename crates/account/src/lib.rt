// An account's row and what each command does to it.
#![tactic(auto)]

ghost use Rattle.std.specs.Prelude.{cond, ◌≡◌, ◌-ℤ◌};
ghost use Rattle.refusal.specs.Rule.{outcome, passing};
ghost use Rattle.account.specs.Purse.{no_purse, purse_sound, purse_zero};
ghost use Rattle.account.specs.Account.{no_account, account_sound, account_zero};
ghost use Rattle.account.specs.Post.{post_checks, posted_to};
ghost use Rattle.account.specs.Rules.{deposit_of, payout_of, approve_of, offer_of, reoffer_of, debit_of, credit_of, accept_of, flag_checks, lender_repaid_of, blacklist_of};

use refusal::Refusal;
use table::{Row, Seen};
use terms::Terms;

/// What an account holds in money: what it has, what it lets the desk take, and its totals as a lender.
#[derive(Clone, Copy, Debug, PartialEq, Eq)]
pub struct Purse {
    pub balance: i64,
    pub allowance: i64,
    pub offered: i64,
    pub accepted: i64,
}

impl Purse {
    /// The purse of a new account.
    pub fn none() -> Purse
        ensures { result ≡ no_purse }
    {
        Purse {
            balance: 0,
            allowance: 0,
            offered: 0,
            accepted: 0,
        }
    }

    /// Whether every number is one that a sound book holds.
    #[tactic(auto, unfolding(crate::specs::Purse::purse_sound))]
    pub fn sound(self) -> bool
        ensures { result ≡ purse_sound self }
    {
        money::in_total_range(self.balance)
            && money::in_total_range(self.allowance)
            && money::in_total_range(self.offered)
            && money::in_total_range(self.accepted)
    }

    /// Whether it is the purse of a new account.
    #[tactic(auto, unfolding(crate::specs::Purse::purse_zero))]
    pub fn zero(self) -> bool
        ensures { result ≡ purse_zero self }
    {
        self == Purse::none()
    }

    /// The offered total moves in place by the new amount minus the old, with its sign, and no other field changes. Where the posting
    /// is refused the total stays too.
    pub fn post(&mut self, old: i64, new: i64) -> Result<(), Refusal>
        ensures answer { result ≡ passing (post_checks self.old (new -ℤ old)) }
        ensures purse { self.new ≡ posted_to self.old (new -ℤ old) }
    {
        self.offered = money::change(self.offered, old, new).ok_or(Refusal::OutOfRange)?;
        Ok(())
    }
}

/// What the book holds of one account.
#[derive(Clone, Copy, Debug, PartialEq, Eq)]
pub struct Account {
    pub purse: Purse,
    pub pending: u32,
    pub repaid: u32,
    pub blacklisted: bool,
}

impl Account {
    /// Whether every number is one that a sound book holds.
    #[tactic(auto, unfolding(crate::specs::Account::account_sound))]
    pub fn sound(self) -> bool
        ensures { result ≡ account_sound self }
    {
        self.purse.sound()
            && self.pending <= money::COUNT_LIMIT
            && self.repaid <= money::COUNT_LIMIT
    }

    /// Whether it is the row of a new account.
    #[tactic(auto, unfolding(crate::specs::Account::account_zero, crate::specs::Purse::purse_zero))]
    pub fn zero(self) -> bool
        ensures { result ≡ account_zero self }
    {
        self == Account::none()
    }

    /// Whether the row can stand at a place: sound where the place is in use, else zero.
    pub fn fits(self, used: bool) -> bool
        ensures { result ≡ cond used (account_sound self) (account_zero self) }
    {
        if used { self.sound() } else { self.zero() }
    }

    /// The row of a new account.
    pub fn none() -> Account
        ensures { result ≡ no_account }
    {
        Account {
            purse: Purse::none(),
            pending: 0,
            repaid: 0,
            blacklisted: false,
        }
    }

    /// Money comes in: the balance grows by the amount.
    pub fn deposit(mut self, amount: i64) -> Result<Account, Refusal>
        ensures { result ≡ outcome (deposit_of self amount) }
    {
        if !money::in_amount_range(amount) {
            return Err(Refusal::InvalidInput);
        }
        self.purse.balance = money::shift(self.purse.balance, amount).ok_or(Refusal::OutOfRange)?;
        Ok(self)
    }

    /// Money goes out: the balance falls by the amount.
    pub fn payout(mut self, amount: i64) -> Result<Account, Refusal>
        ensures { result ≡ outcome (payout_of self amount) }
    {
        if !money::in_amount_range(amount) {
            return Err(Refusal::InvalidInput);
        }
        self.purse.balance = money::lower(self.purse.balance, amount).ok_or(Refusal::BalanceShort)?;
        Ok(self)
    }

    /// The allowance becomes the amount, whatever it was.
    pub fn approve(mut self, amount: i64) -> Result<Account, Refusal>
        ensures { result ≡ outcome (approve_of self amount) }
    {
        if !money::in_total_range(amount) {
            return Err(Refusal::InvalidInput);
        }
        self.purse.allowance = amount;
        Ok(self)
    }

    /// A new offer: the offered total grows by its amount, the count of offers by one.
    pub fn offer(mut self, t: Terms) -> Result<Account, Refusal>
        ensures { result ≡ outcome (offer_of self t) }
    {
        self.purse.offered = money::shift(self.purse.offered, t.amount).ok_or(Refusal::OutOfRange)?;
        if money::COUNT_LIMIT <= self.pending {
            return Err(Refusal::OutOfRange);
        }
        self.pending += 1;
        Ok(self)
    }

    /// An amended offer: the offered total moves by the new amount minus the old.
    pub fn reoffer(mut self, old: Terms, new: Terms) -> Result<Account, Refusal>
        ensures { result ≡ outcome (reoffer_of self old new) }
    {
        self.purse.post(old.amount, new.amount)?;
        Ok(self)
    }

    /// A settled amount leaves the lender: its allowance and its balance fall.
    pub fn debit(mut self, t: Terms) -> Result<Account, Refusal>
        ensures { result ≡ outcome (debit_of self t) }
    {
        let allowance = money::lower(self.purse.allowance, t.amount);
        let balance = money::lower(self.purse.balance, t.amount);
        self.purse.allowance = allowance.ok_or(Refusal::AllowanceShort)?;
        self.purse.balance = balance.ok_or(Refusal::BalanceShort)?;
        Ok(self)
    }

    /// A settled amount reaches the originator.
    pub fn credit(mut self, t: Terms) -> Result<Account, Refusal>
        ensures { result ≡ outcome (credit_of self t) }
    {
        self.purse.balance = money::shift(self.purse.balance, t.amount).ok_or(Refusal::OutOfRange)?;
        Ok(self)
    }

    /// A settled amount grows the lender's accepted total.
    pub fn accept(mut self, t: Terms) -> Result<Account, Refusal>
        ensures { result ≡ outcome (accept_of self t) }
    {
        let accepted = money::shift(self.purse.accepted, t.amount);
        self.purse.accepted = accepted.ok_or(Refusal::OutOfRange)?;
        Ok(self)
    }
}

impl Row for Account {
    ghost empty = { no_account };

    fn empty() -> Account {
        Account::none()
    }
}

// A row looked up: whether it is there, and the row, which is zero where it is not.
pub type SeenAccount = Seen<Account>;

// What stands against a flag set on an account by another.
fn flag_checks(seen: SeenAccount, allowed: bool, flag: u32) -> Result<(), Refusal>
    ensures { result ≡ passing (flag_checks seen allowed flag) }
{
    if !allowed {
        return Err(Refusal::Unauthorized);
    }
    if 1 < flag {
        return Err(Refusal::InvalidInput);
    }
    if !seen.here {
        return Err(Refusal::NotFound);
    }
    Ok(())
}

/// Repayment adds its flag to the count of repaid offers.
pub fn lender_repaid(seen: SeenAccount, allowed: bool, flag: u32) -> Result<Account, Refusal>
    ensures { result ≡ outcome (lender_repaid_of seen allowed flag) }
{
    flag_checks(seen, allowed, flag)?;
    let mut row = seen.row;
    if money::COUNT_LIMIT < row.repaid || money::COUNT_LIMIT < row.repaid + flag {
        return Err(Refusal::OutOfRange);
    }
    row.repaid += flag;
    Ok(row)
}

/// The account is listed with code 1, and taken off with 0.
pub fn blacklist(seen: SeenAccount, allowed: bool, code: u32) -> Result<Account, Refusal>
    ensures { result ≡ outcome (blacklist_of seen allowed code) }
{
    flag_checks(seen, allowed, code)?;
    let mut row = seen.row;
    row.blacklisted = code == 1;
    Ok(row)
}
