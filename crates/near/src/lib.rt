// What one command sees of a book, and its turn on that: rows, not tables.
#![tactic(auto)]

ghost use Rattle.std.specs.Prelude.{◌≡◌, ℕ};
ghost use Rattle.refusal.specs.Choice.{pick};
ghost use Rattle.refusal.specs.Rule.{Rule, passing, outcome};
ghost use Rattle.table.specs.Tables.{full};
ghost use Rattle.table.specs.Named as Keyed;
ghost use Rattle.account.specs.Rules as Accounts;
ghost use Rattle.account.specs.declared.Account as Rows;
ghost use Rattle.invoice.specs.Invoice as Invoices;
ghost use Rattle.offer.specs.Offer as Offers;
ghost use Rattle.offer.specs.Rules.{withdraw_of, reject_of, close_of, schedule_of, status_update_of, repaid_update_of};
ghost use Rattle.offer.specs.declared.Deal as Deals;
ghost use Rattle.settings.specs.Settings as Set;
ghost use Rattle.totals.specs.Totals.{repay_of};
ghost use Rattle.settings.specs.declared.Settings as Sets;
ghost use Rattle.rules.specs.Model.{Model, account_in, invoice_in, offer_in, paper_of, on_account, on_invoice, on_offer, on_totals, on_settings};
ghost use Rattle.command.specs.Names.{names_of};
ghost use Rattle.rules.specs.Rules.{gate_by, opening, registering, creating, settling, accepting, concluding, amending, countering, lender_of, originator_of, commanded};
ghost use Rattle.rules.specs.Keys.{Keys, keys_by, keys_of};
ghost use Rattle.near.specs.Near.{view_of, Turns, Anywhere, AtFirst, AtSecond, AtPaper, AtDeal, deal_keys, sides_of, BySides, SeesAmendment, SeesCounter, TurnsBy};

use account::Account;
use command::Command;
use invoice::{Invoice, SeenInvoice};
use offer::{Deal, SeenDeal};
use parties::Parties;
use refusal::Refusal;
use settings::Settings;
use terms::Terms;
use totals::Totals;

// The rows at a command's keys, the totals and the settings.
#[derive(Clone, Copy)]
pub struct Near {
    pub parties: Parties,
    pub paper: SeenInvoice,
    pub deal: SeenDeal,
    pub totals: Totals,
    pub settings: Settings,
}

// How many rows each table has.
#[derive(Clone, Copy)]
pub struct Counts {
    pub accounts: usize,
    pub invoices: usize,
    pub offers: usize,
}

// ── A row's answer, put where the row was seen ──
impl Near {
    fn first_posted(self, posted: Result<Account, Refusal>) -> Result<Near, Refusal>
        ensures { (u : Rule Rows.Account) (a : ℕ) (b i o : Keyed.Named) (m : Model) → posted ≡ outcome u → Turns self result (keys_by (Some a) b i o) m (on_account m a u) }
    {
        let row = posted?;
        Ok(Near {
            parties: self.parties.put_first(row),
            ..self
        })
    }

    fn second_posted(self, posted: Result<Account, Refusal>) -> Result<Near, Refusal>
        ensures { (u : Rule Rows.Account) (b : ℕ) (a i o : Keyed.Named) (m : Model) → posted ≡ outcome u → Turns self result (keys_by a (Some b) i o) m (on_account m b u) }
    {
        let row = posted?;
        Ok(Near {
            parties: self.parties.put_second(row),
            ..self
        })
    }

    fn deal_posted(self, posted: Result<Deal, Refusal>) -> Result<Near, Refusal>
        ensures { (u : Rule Deals.Deal) (o : ℕ) (a b i : Keyed.Named) (m : Model) → posted ≡ outcome u → Turns self result (keys_by a b i (Some o)) m (on_offer m o u) }
    {
        let row = posted?;
        Ok(Near {
            deal: self.deal.put(row),
            ..self
        })
    }

    fn settings_posted(self, posted: Result<Settings, Refusal>) -> Result<Near, Refusal>
        ensures { (u : Rule Sets.Settings) (k : Keys) (m : Model) → posted ≡ outcome u → Turns self result k m (on_settings m u) }
    {
        let settings = posted?;
        Ok(Near { settings, ..self })
    }
}

// ── Commands on one row ──
impl Near {
    fn deposited(self, amount: i64) -> Result<Near, Refusal>
        ensures { AtFirst self result (λ a m. on_account m a (Accounts.deposit_of (account_in m a).row amount)) }
    {
        self.first_posted(self.parties.first.row.deposit(amount))
    }

    fn paid_out(self, amount: i64) -> Result<Near, Refusal>
        ensures { AtFirst self result (λ a m. on_account m a (Accounts.payout_of (account_in m a).row amount)) }
    {
        self.first_posted(self.parties.first.row.payout(amount))
    }

    fn approved(self, amount: i64) -> Result<Near, Refusal>
        ensures { AtFirst self result (λ a m. on_account m a (Accounts.approve_of (account_in m a).row amount)) }
    {
        self.first_posted(self.parties.first.row.approve(amount))
    }

    fn blacklisted(self, code: u32, seats: u64) -> Result<Near, Refusal>
        ensures { AtFirst self result (λ a m. on_account m a (Accounts.blacklist_of (account_in m a) (Set.admin_passes m.settings seats) code)) }
    {
        let allowed = self.settings.admin_passes(seats);
        self.first_posted(account::blacklist(self.parties.first, allowed, code))
    }

    fn lender_repaid(self, caller: u64, flag: u32) -> Result<Near, Refusal>
        ensures { AtSecond self result (λ b m. on_account m b (Accounts.lender_repaid_of (account_in m b) (Set.is_repayer m.settings caller) flag)) }
    {
        let allowed = self.settings.is_repayer(caller);
        self.second_posted(account::lender_repaid(self.parties.second, allowed, flag))
    }

    fn cancelled(self, caller: u64) -> Result<Near, Refusal>
        ensures { AtPaper self result (λ i m. on_invoice m i (Invoices.cancel_of (invoice_in m i) caller)) }
    {
        let row = invoice::cancel(self.paper, caller)?;
        Ok(Near {
            paper: self.paper.put(row),
            ..self
        })
    }

    fn withdrawn(self, caller: u64) -> Result<Near, Refusal>
        ensures { AtDeal self result (λ o m. on_offer m o (withdraw_of (offer_in m o) caller)) }
    {
        self.deal_posted(offer::withdraw(self.deal, caller))
    }

    fn rejected(self, caller: u64) -> Result<Near, Refusal>
        ensures { AtDeal self result (λ o m. on_offer m o (reject_of (offer_in m o) caller (paper_of m o))) }
    {
        self.deal_posted(offer::reject(self.deal, caller, self.paper))
    }

    fn closed(self, now: u64, caller: u64) -> Result<Near, Refusal>
        ensures { AtDeal self result (λ o m. on_offer m o (close_of (offer_in m o) now caller (paper_of m o))) }
    {
        self.deal_posted(offer::close(self.deal, now, caller, self.paper))
    }

    fn scheduled(
        self,
        now: u64,
        caller: u64,
        count: u32,
        code: u32,
        start: u64,
        kind: u64,
    ) -> Result<Near, Refusal>
        ensures { AtDeal self result (λ o m. on_offer m o (schedule_of m.settings.edition (offer_in m o) now caller count code start kind (paper_of m o))) }
    {
        let edition = self.settings.edition;
        self.deal_posted(offer::schedule(
            edition, self.deal, now, caller, count, code, start, kind, self.paper,
        ))
    }

    fn status_updated(self, caller: u64, code: u32) -> Result<Near, Refusal>
        ensures { AtDeal self result (λ o m. on_offer m o (status_update_of (offer_in m o) (Set.is_repayer m.settings caller) code)) }
    {
        let allowed = self.settings.is_repayer(caller);
        self.deal_posted(offer::update_status(self.deal, allowed, code))
    }

    fn repaid_updated(self, caller: u64, amount: i64) -> Result<Near, Refusal>
        ensures { AtDeal self result (λ o m. on_offer m o (repaid_update_of (offer_in m o) (Set.is_repayer m.settings caller) amount)) }
    {
        let allowed = self.settings.is_repayer(caller);
        self.deal_posted(offer::update_repaid(self.deal, allowed, amount))
    }

    fn totals_repaid(self, caller: u64, amount: i64, fee: i64) -> Result<Near, Refusal>
        ensures { Anywhere self result (λ m. on_totals m (repay_of m.totals (Set.is_repayer m.settings caller) amount fee)) }
    {
        let allowed = self.settings.is_repayer(caller);
        let totals = self.totals.repay(allowed, amount, fee)?;
        Ok(Near { totals, ..self })
    }

    fn pause_set(self, seats: u64, paused: bool) -> Result<Near, Refusal>
        ensures { Anywhere self result (λ m. on_settings m (Set.pause_of m.settings seats paused)) }
    {
        self.settings_posted(self.settings.pause(seats, paused))
    }

    fn window_set(self, seats: u64, window: u64) -> Result<Near, Refusal>
        ensures { Anywhere self result (λ m. on_settings m (Set.window_of m.settings seats window)) }
    {
        self.settings_posted(self.settings.set_window(seats, window))
    }

    fn repayer_set(self, id: u64, seats: u64) -> Result<Near, Refusal>
        ensures { (b i o : Keyed.Named) (m : Model) → Turns self result (keys_by (Some id) b i o) m (on_settings m (Set.repayer_of m.settings seats id (account_in m id).here)) }
    {
        let known = self.parties.first.here;
        self.settings_posted(self.settings.set_repayer(seats, id, known))
    }

    fn seats_set(self, seats: u64, threshold: u32, fresh: u64) -> Result<Near, Refusal>
        ensures { Anywhere self result (λ m. on_settings m (Set.seats_of m.settings seats threshold fresh)) }
    {
        self.settings_posted(self.settings.set_seats(seats, threshold, fresh))
    }
}

// ── Commands that let a row in ──
impl Near {
    fn opened(self, filled: bool) -> Result<Near, Refusal>
        ensures { (a : ℕ) (b i o : Keyed.Named) (m : Model) → filled ≡ full 64 m.accounts → Turns self result (keys_by (Some a) b i o) m (opening m a) }
    {
        if self.parties.first.here {
            return Err(Refusal::AlreadyExists);
        }
        if filled {
            return Err(Refusal::NoRoom);
        }
        Ok(Near {
            parties: self.parties.let_in(Account::none()),
            ..self
        })
    }

    fn registered(self, caller: u64, amount: i64, filled: bool) -> Result<Near, Refusal>
        ensures { (i : ℕ) (a b o : Keyed.Named) (m : Model) → filled ≡ full 64 m.invoices → Turns self result (keys_by a b (Some i) o) m (registering m caller i amount) }
    {
        invoice::register_checks(amount, self.paper.here, filled)?;
        Ok(Near {
            paper: SeenInvoice {
                here: true,
                row: Invoice::new(caller, amount),
            },
            ..self
        })
    }

    fn created(
        self,
        caller: u64,
        paper: u64,
        t: Terms,
        expires: u64,
        filled: bool,
    ) -> Result<Near, Refusal>
        ensures { (o : ℕ) (b : Keyed.Named) (m : Model) → filled ≡ full 64 m.offers → Turns self result (keys_by (Some caller) b (Some paper) (Some o)) m (creating m caller o paper t expires) }
    {
        let lender = self.parties.first.row;
        offer::create_checks(caller, lender, t, self.paper, self.deal.here, filled)?;
        let row = lender.offer(t)?;
        let totals = self.totals.count()?;
        Ok(Near {
            parties: self.parties.put_first(row),
            deal: SeenDeal {
                here: true,
                row: Deal::new(caller, paper, t, expires),
            },
            totals,
            ..self
        })
    }
}

// ── Settlement ──
impl Near {
    // The money moves, and every row that an accepted offer touches says so. `lends`: the first account is the lender's, else the second is.
    fn settle(self, now: u64, lends: bool) -> Result<Near, Refusal>
        ensures { BySides lends self result (λ o m. settling now o m) }
    {
        let terms = self.deal.row.offer.terms;
        let parties = self.parties.settle_by(terms, lends)?;
        let totals = self.totals.finance(terms)?;
        Ok(Near {
            parties,
            paper: self.paper.put(self.paper.row.financed()),
            deal: self.deal.put(self.deal.row.settled(now)),
            totals,
            ..self
        })
    }

    fn accepted(self, now: u64, caller: u64) -> Result<Near, Refusal>
        ensures { (o : ℕ) (m : Model) → Turns self result (deal_keys (Some caller) (Some (lender_of m o)) m o) m (accepting m now caller o) }
    {
        offer::accept_checks(self.deal, now, caller, self.paper)?;
        self.settle(now, false)
    }

    // What an agreement does to what has the round. Where it is refused the round is undone too: nothing comes back.
    fn conclude(self, now: u64, lends: bool) -> Result<Near, Refusal>
        ensures { BySides lends self result (λ o m. concluding now o m) }
    {
        let lender = self.parties.side(lends);
        let originator = self.parties.side(!lends);
        self.deal
            .row
            .agreement_checks(now, self.paper, lender, originator)?;
        self.settle(now, lends)
    }

    // What is seen with the lender's round, his offered total moved.
    fn with_amendment(self, now: u64, row: Account, t: Terms) -> Near
        ensures { SeesAmendment self result now row t }
    {
        let amended = self.deal.row.amended(now, self.settings.window, t);
        Near {
            parties: self.parties.put_first(row),
            deal: self.deal.put(amended),
            ..self
        }
    }

    // What is seen with the originator's round.
    fn with_counter(self, now: u64, t: Terms) -> Near
        ensures { SeesCounter self result now t }
    {
        let countered = self.deal.row.countered(now, self.settings.window, t);
        Near {
            deal: self.deal.put(countered),
            ..self
        }
    }

    fn amended(self, now: u64, caller: u64, t: Terms, round: u32) -> Result<Near, Refusal>
        ensures { (o : ℕ) (m : Model) → Turns self result (deal_keys (Some caller) (Some (originator_of m o)) m o) m (amending m now caller o t round) }
    {
        let edition = self.settings.edition;
        let lender = self.parties.first.row;
        offer::amend_checks(
            edition, self.deal, now, caller, lender, t, round, self.paper,
        )?;
        let row = lender.reoffer(self.deal.row.offer.terms, t)?;
        let mid = self.with_amendment(now, row, t);
        if !self.deal.row.negotiation.agrees(t) {
            return Ok(mid);
        }
        mid.conclude(now, true)
    }

    fn countered(self, now: u64, caller: u64, t: Terms, round: u32) -> Result<Near, Refusal>
        ensures { (o : ℕ) (m : Model) → Turns self result (deal_keys (Some caller) (Some (lender_of m o)) m o) m (countering m now caller o t round) }
    {
        let edition = self.settings.edition;
        let originator = self.parties.first.row;
        offer::counter_checks(
            edition, self.deal, now, caller, originator, t, round, self.paper,
        )?;
        let mid = self.with_counter(now, t);
        if !terms::same_terms(self.deal.row.offer.terms, t) {
            return Ok(mid);
        }
        mid.conclude(now, false)
    }
}

// What stands before every command: a paused book, or a caller without an account.
fn gate(c: Command, paused: bool, here: bool) -> Result<(), Refusal>
    ensures { result ≡ passing (gate_by paused here (names_of c)) }
{
    let names = c.names();
    if paused && names.pausable {
        return Err(Refusal::Paused);
    }
    if names.called && !here {
        return Err(Refusal::NotFound);
    }
    Ok(())
}

// ── The turn of a command ──
impl Near {
    // The gate, then the command's own rule. `rows`: how many each table has.
    pub fn turn(self, c: Command, rows: Counts) -> Result<Near, Refusal>
        ensures { TurnsBy self result c rows (λ m. commanded m c) }
    {
        gate(c, self.settings.paused, self.parties.first.here)?;
        match c {
            Command::OpenAccount { .. } => self.opened(table::ROOM <= rows.accounts),
            Command::Deposit { amount, .. } => self.deposited(amount),
            Command::Payout { amount, .. } => self.paid_out(amount),
            Command::Approve { amount, .. } => self.approved(amount),
            Command::RegisterInvoice { caller, amount, .. } => self.registered(
                caller,
                amount,
                table::ROOM <= rows.invoices,
            ),
            Command::CancelInvoice { caller, .. } => self.cancelled(caller),
            Command::CreateOffer {
                caller,
                invoice,
                terms,
                expires,
                ..
            } => self.created(caller, invoice, terms, expires, table::ROOM <= rows.offers),
            Command::WithdrawOffer { caller, .. } => self.withdrawn(caller),
            Command::AcceptOffer { now, caller, .. } => self.accepted(now, caller),
            Command::RejectOffer { caller, .. } => self.rejected(caller),
            Command::AmendOffer {
                now,
                caller,
                terms,
                round,
                ..
            } => self.amended(now, caller, terms, round),
            Command::CounterOffer {
                now,
                caller,
                terms,
                round,
                ..
            } => self.countered(now, caller, terms, round),
            Command::CloseNegotiation { now, caller, .. } => self.closed(now, caller),
            Command::ScheduleRepayment {
                now,
                caller,
                count,
                code,
                first,
                kind,
                ..
            } => self.scheduled(now, caller, count, code, first, kind),
            Command::UpdateStatus { caller, code, .. } => self.status_updated(caller, code),
            Command::UpdateRepaid { caller, amount, .. } => self.repaid_updated(caller, amount),
            Command::UpdateLenderRepaid { caller, code, .. } => self.lender_repaid(caller, code),
            Command::UpdateTotalsRepaid {
                caller,
                amount,
                fee,
                ..
            } => self.totals_repaid(caller, amount, fee),
            Command::Pause { seats, .. } => self.pause_set(seats, true),
            Command::Unpause { seats, .. } => self.pause_set(seats, false),
            Command::SetWindow { seats, window, .. } => self.window_set(seats, window),
            Command::SetRepaymentAccount { id, seats, .. } => self.repayer_set(id, seats),
            Command::SetBlacklisted { code, seats, .. } => self.blacklisted(code, seats),
            Command::SetSeats {
                seats,
                threshold,
                next,
                ..
            } => self.seats_set(seats, threshold, next),
        }
    }
}
