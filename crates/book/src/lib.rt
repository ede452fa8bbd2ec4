// The whole book: three tables, the totals and the settings; any command on any book.
#![tactic(auto)]

ghost use Rattle.std.specs.Prelude.{◌≡◌, true};
ghost use Rattle.refusal.specs.Rule.{after, passing};
ghost use Rattle.command.specs.declared.Command.TheVariants.{OpenAccount, Deposit, Payout, Approve, RegisterInvoice, CancelInvoice, CreateOffer, WithdrawOffer, AcceptOffer, RejectOffer, AmendOffer, CounterOffer, CloseNegotiation, ScheduleRepayment, UpdateStatus, UpdateRepaid, UpdateLenderRepaid, UpdateTotalsRepaid, Pause, Unpause, SetWindow, SetRepaymentAccount, SetBlacklisted, SetSeats};
ghost use Rattle.rules.specs.Model.{fresh_model};
ghost use Rattle.rules.specs.Rules.{commanded};
ghost use Rattle.book.specs.Stored.{model_of, stored, number_of, Shelved, book_test, fresh_book, answers};

use command::Command;
use near::{Counts, Near};
use parties::Parties;
use refusal::Refusal;
use settings::Settings;
use shelves::{Accounts, Invoices, Offers};
use terms::Terms;
use totals::Totals;

// The whole book: it goes into a command by value and comes back with the answer.
#[derive(Clone, Copy)]
pub struct Book {
    pub accounts: Accounts,
    pub invoices: Invoices,
    pub offers: Offers,
    pub totals: Totals,
    pub settings: Settings,
}

// A command's answer, 0 where it is accepted, and the next book.
// A struct and not a Result: the book comes back with a refusal too, the very book (refusal_returns, crates/soundness/specs/Calls.antt).
#[derive(Clone, Copy)]
pub struct Step {
    pub answer: u64,
    pub book: Book,
}

// The number of an answer: 0 where nothing is refused.
pub fn number_of(answer: Result<(), Refusal>) -> u64
    ensures { result ≡ number_of answer }
{
    match answer {
        Ok(()) => 0,
        Err(refusal) => refusal.number(),
    }
}

impl Book {
    // A book with no rows, zero totals and the first settings, in an edition; 13, and the first edition's, where that is not listed.
    #[tactic(auto, unfolding(crate::specs::Stored::fresh_book, refusal::specs::Choice::pick))]
    pub fn fresh(edition: u32) -> Step
        ensures { result ≡ fresh_book edition }
    {
        if !edition::is_listed(edition) {
            return Step {
                answer: Refusal::JournalMalformed.number(),
                book: Book::of_edition(edition::FIRST),
            };
        }
        Step {
            answer: 0,
            book: Book::of_edition(edition),
        }
    }

    // The same without the test: in an edition that is not listed the book is unsound.
    pub fn of_edition(edition: u32) -> Book
        ensures { result ≡ stored (fresh_model edition) }
    {
        Book {
            accounts: Accounts::none(),
            invoices: Invoices::none(),
            offers: Offers::none(),
            totals: Totals::none(),
            settings: Settings::fresh(edition),
        }
    }

    // Whether the book is sound, as document 01 says.
    pub fn sound(&self) -> bool
        ensures tested { result ≡ book_test self.now }
        ensures shelved { result ≡ true → Shelved self.now }
    {
        let accounts = self.accounts.sound();
        let invoices = self.invoices.sound();
        let offers = self.offers.sound(self.settings.edition);
        let totals = self.totals.sound();
        accounts & invoices & offers & totals & self.settings.sound()
    }

    // The step on a sound book, which it leaves as it was where the command is refused; it tests nothing of the book again. The rows
    // that the command names are seen, turned and stored.
    pub fn obey(&mut self, c: Command) -> Result<(), Refusal>
        requires { Shelved self.old }
        ensures answer { result ≡ passing (commanded (model_of self.old) c).checks }
        ensures book { self.new ≡ stored (after (model_of self.old) (commanded (model_of self.old) c)) }
    {
        let names = c.names();
        let place = table::spot_by(&self.offers.ids, self.offers.count, names.offer);
        let deal = self.offers.see_at(names.offer, place);
        let key = names.paper.key(deal.row.offer.invoice);
        let found = table::spot_by(&self.invoices.ids, self.invoices.count, key);
        let paper = self.invoices.see_at(key, found);
        let other = names
            .second
            .key(deal.row.offer.lender, paper.row.originator);
        let one = table::spot_by(&self.accounts.ids, self.accounts.count, names.first);
        let two = table::spot_by(&self.accounts.ids, self.accounts.count, other);
        let near = Near {
            parties: Parties {
                first: self.accounts.see_at(names.first, one),
                second: self.accounts.see_at(other, two),
                one: table::same(names.first, other),
            },
            paper,
            deal,
            totals: self.totals,
            settings: self.settings,
        };
        let rows = Counts {
            accounts: self.accounts.count,
            invoices: self.invoices.count,
            offers: self.offers.count,
        };
        let after = near.turn(c, rows)?;
        self.accounts.store_at(
            names.first,
            one,
            other,
            two,
            after.parties.first,
            after.parties.second.row,
        );
        self.invoices.store_at(key, found, after.paper);
        self.offers.store_at(names.offer, place, after.deal);
        self.totals = after.totals;
        self.settings = after.settings;
        Ok(())
    }

    // Any command on any book: 15 and the book as it was where it is not sound.
    pub fn apply(mut self, c: Command) -> Step
        ensures { result ≡ answers self c }
    {
        if !self.sound() {
            return Step {
                answer: Refusal::BookUnsound.number(),
                book: self,
            };
        }
        let answer = number_of(self.obey(c));
        Step { answer, book: self }
    }

    // The caller opens an account.
    pub fn open_account(self, now: u64, caller: u64) -> Step
        ensures { result ≡ answers self (OpenAccount now caller) }
    {
        self.apply(Command::OpenAccount { now, caller })
    }

    // Money comes into the caller's account.
    pub fn deposit(self, now: u64, caller: u64, amount: i64) -> Step
        ensures { result ≡ answers self (Deposit now caller amount) }
    {
        self.apply(Command::Deposit {
            now,
            caller,
            amount,
        })
    }

    // Money leaves the caller's account.
    pub fn payout(self, now: u64, caller: u64, amount: i64) -> Step
        ensures { result ≡ answers self (Payout now caller amount) }
    {
        self.apply(Command::Payout {
            now,
            caller,
            amount,
        })
    }

    // The caller lets the desk take up to this much.
    pub fn approve(self, now: u64, caller: u64, amount: i64) -> Step
        ensures { result ≡ answers self (Approve now caller amount) }
    {
        self.apply(Command::Approve {
            now,
            caller,
            amount,
        })
    }

    // The caller puts up an invoice.
    pub fn register_invoice(self, now: u64, caller: u64, id: u64, amount: i64) -> Step
        ensures { result ≡ answers self (RegisterInvoice now caller id amount) }
    {
        self.apply(Command::RegisterInvoice {
            now,
            caller,
            id,
            amount,
        })
    }

    // The originator takes back an invoice that is Pending.
    pub fn cancel_invoice(self, now: u64, caller: u64, id: u64) -> Step
        ensures { result ≡ answers self (CancelInvoice now caller id) }
    {
        self.apply(Command::CancelInvoice { now, caller, id })
    }

    // The caller offers to lend on an invoice.
    pub fn create_offer(
        self,
        now: u64,
        caller: u64,
        id: u64,
        invoice: u64,
        terms: Terms,
        expires: u64,
    ) -> Step
        ensures { result ≡ answers self (CreateOffer now caller id invoice terms expires) }
    {
        self.apply(Command::CreateOffer {
            now,
            caller,
            id,
            invoice,
            terms,
            expires,
        })
    }

    // The lender takes back an offer that is Pending.
    pub fn withdraw_offer(self, now: u64, caller: u64, id: u64) -> Step
        ensures { result ≡ answers self (WithdrawOffer now caller id) }
    {
        self.apply(Command::WithdrawOffer { now, caller, id })
    }

    // The originator accepts an offer, which is settled.
    pub fn accept_offer(self, now: u64, caller: u64, id: u64) -> Step
        ensures { result ≡ answers self (AcceptOffer now caller id) }
    {
        self.apply(Command::AcceptOffer { now, caller, id })
    }

    // The originator rejects an offer.
    pub fn reject_offer(self, now: u64, caller: u64, id: u64) -> Step
        ensures { result ≡ answers self (RejectOffer now caller id) }
    {
        self.apply(Command::RejectOffer { now, caller, id })
    }

    // The lender puts down new terms; where the originator has asked for them the offer is settled.
    pub fn amend_offer(self, now: u64, caller: u64, id: u64, terms: Terms, round: u32) -> Step
        ensures { result ≡ answers self (AmendOffer now caller id terms round) }
    {
        self.apply(Command::AmendOffer {
            now,
            caller,
            id,
            terms,
            round,
        })
    }

    // The originator asks for other terms; where they are the lender's the offer is settled.
    pub fn counter_offer(self, now: u64, caller: u64, id: u64, terms: Terms, round: u32) -> Step
        ensures { result ≡ answers self (CounterOffer now caller id terms round) }
    {
        self.apply(Command::CounterOffer {
            now,
            caller,
            id,
            terms,
            round,
        })
    }

    // The negotiation of an offer is closed, or found expired.
    pub fn close_negotiation(self, now: u64, caller: u64, id: u64) -> Step
        ensures { result ≡ answers self (CloseNegotiation now caller id) }
    {
        self.apply(Command::CloseNegotiation { now, caller, id })
    }

    // The lender or the originator sets the installments, of a kind that the edition has.
    pub fn schedule_repayment(
        self,
        now: u64,
        caller: u64,
        id: u64,
        count: u32,
        code: u32,
        first: u64,
        kind: u64,
    ) -> Step
        ensures { result ≡ answers self (ScheduleRepayment now caller id count code first kind) }
    {
        self.apply(Command::ScheduleRepayment {
            now,
            caller,
            id,
            count,
            code,
            first,
            kind,
        })
    }

    // The repayment account sets an offer's status.
    pub fn update_offer_status(self, now: u64, caller: u64, id: u64, code: u32) -> Step
        ensures { result ≡ answers self (UpdateStatus now caller id code) }
    {
        self.apply(Command::UpdateStatus {
            now,
            caller,
            id,
            code,
        })
    }

    // The repayment account sets what is repaid of an offer.
    pub fn update_offer_amount_repaid(self, now: u64, caller: u64, id: u64, amount: i64) -> Step
        ensures { result ≡ answers self (UpdateRepaid now caller id amount) }
    {
        self.apply(Command::UpdateRepaid {
            now,
            caller,
            id,
            amount,
        })
    }

    // The repayment account counts an offer as repaid.
    pub fn update_lender_stats_repaid(self, now: u64, caller: u64, id: u64, code: u32) -> Step
        ensures { result ≡ answers self (UpdateLenderRepaid now caller id code) }
    {
        self.apply(Command::UpdateLenderRepaid {
            now,
            caller,
            id,
            code,
        })
    }

    // The repayment account posts to the book's repaid and fee totals.
    pub fn update_stats_repaid(self, now: u64, caller: u64, amount: i64, fee: i64) -> Step
        ensures { result ≡ answers self (UpdateTotalsRepaid now caller amount fee) }
    {
        self.apply(Command::UpdateTotalsRepaid {
            now,
            caller,
            amount,
            fee,
        })
    }

    // The admins pause the desk.
    pub fn pause(self, now: u64, seats: u64) -> Step
        ensures { result ≡ answers self (Pause now seats) }
    {
        self.apply(Command::Pause { now, seats })
    }

    // The admins let the desk go on.
    pub fn unpause(self, now: u64, seats: u64) -> Step
        ensures { result ≡ answers self (Unpause now seats) }
    {
        self.apply(Command::Unpause { now, seats })
    }

    // The admins set how long a negotiation stays open.
    pub fn set_negotiation_window(self, now: u64, seats: u64, window: u64) -> Step
        ensures { result ≡ answers self (SetWindow now seats window) }
    {
        self.apply(Command::SetWindow { now, seats, window })
    }

    // The admins appoint the repayment account.
    pub fn set_repayment_account(self, now: u64, id: u64, seats: u64) -> Step
        ensures { result ≡ answers self (SetRepaymentAccount now id seats) }
    {
        self.apply(Command::SetRepaymentAccount { now, id, seats })
    }

    // The admins set or clear an account's blacklist mark.
    pub fn set_blacklisted(self, now: u64, id: u64, code: u32, seats: u64) -> Step
        ensures { result ≡ answers self (SetBlacklisted now id code seats) }
    {
        self.apply(Command::SetBlacklisted {
            now,
            id,
            code,
            seats,
        })
    }

    // The admins set their seats and threshold.
    pub fn set_seats(self, now: u64, seats: u64, threshold: u32, next: u64) -> Step
        ensures { result ≡ answers self (SetSeats now seats threshold next) }
    {
        self.apply(Command::SetSeats {
            now,
            seats,
            threshold,
            next,
        })
    }
}
