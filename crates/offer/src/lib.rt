// An offer's row with its negotiation and its schedule, and what each command asks of it and does to it.
#![tactic(auto)]

ghost use Rattle.std.specs.Prelude.{cond, ◌≡◌};
ghost use Rattle.refusal.specs.Rule.{outcome, passing};
ghost use Rattle.negotiation.specs.Rounds.{round_slots};
ghost use Rattle.negotiation.specs.Whole.{Whole};
ghost use Rattle.offer.specs.Offer.{no_offer, offer_zero, no_deal, new_deal, deal_sound, deal_zero, pending, expired, settled_deal, amended_deal, countered_deal};
ghost use Rattle.offer.specs.Rules.{create_checks, withdraw_of, reject_of, accept_checks, round_checks, amend_checks, counter_checks, agreement_checks, outcome_at, close_of, schedule_checks, schedule_of, status_update_of, repaid_update_of};

use account::{Account, SeenAccount};
use invoice::SeenInvoice;
use negotiation::{Negotiation, Round};
use refusal::Refusal;
use table::{Row, Seen};
use terms::{Schedule, Terms};

// The status is the number that a book stores, listed or not: a test of the whole book answers for any number.
#[derive(Clone, Copy, PartialEq, Eq)]
pub struct Offer {
    pub terms: Terms,
    pub invoice: u64,
    pub lender: u64,
    pub expires: u64,
    pub funded: u64,
    pub repaid: i64,
    pub status: u32,
}

impl Offer {
    // The row that is not in use.
    pub fn none() -> Offer
        ensures { result ≡ no_offer }
    {
        Offer {
            terms: Terms {
                amount: 0,
                rate: 0,
                duration: 0,
            },
            invoice: 0,
            lender: 0,
            expires: 0,
            funded: 0,
            repaid: 0,
            status: terms::PENDING,
        }
    }

    // Whether the offer's time is over.
    #[tactic(auto, unfolding(crate::specs::Offer::expired))]
    pub fn expired(self, now: u64) -> bool
        ensures { result ≡ expired self now }
    {
        self.expires != 0 && self.expires <= now
    }

    // Whether every number is 0.
    #[tactic(auto, unfolding(crate::specs::Offer::offer_zero))]
    pub fn zero(self) -> bool
        ensures { result ≡ offer_zero self }
    {
        self == Offer::none()
    }
}

// No installments.
const NO_SCHEDULE: Schedule = Schedule {
    count: 0,
    code: 0,
    installment: 0,
    first: 0,
    amount: 0,
    rate: 0,
    kind: 0,
};

// An offer with its negotiation and its schedule: one row of the offers' table.
#[derive(Clone, Copy)]
pub struct Deal {
    pub offer: Offer,
    pub negotiation: Negotiation,
    pub schedule: Schedule,
}

impl Deal {
    // The row that is not in use.
    pub fn none() -> Deal
        ensures { result ≡ no_deal }
    {
        Deal {
            offer: Offer::none(),
            negotiation: Negotiation::none(),
            schedule: NO_SCHEDULE,
        }
    }

    // A created offer, Pending, with no rounds and no schedule.
    pub fn new(lender: u64, invoice: u64, t: Terms, expires: u64) -> Deal
        ensures { result ≡ new_deal lender invoice t expires }
    {
        Deal {
            offer: Offer {
                terms: t,
                invoice,
                lender,
                expires,
                funded: 0,
                repaid: 0,
                status: terms::PENDING,
            },
            negotiation: Negotiation::none(),
            schedule: NO_SCHEDULE,
        }
    }

    // Ranges, a listed status, and a sound negotiation and schedule, by the book's edition.
    #[tactic(auto, unfolding(crate::specs::Offer::deal_sound))]
    pub fn sound(self, edition: u32) -> bool
        ensures tested { result ≡ deal_sound edition self }
        ensures whole { Whole round_slots self.negotiation }
    {
        let sound = self.negotiation.sound(edition::round_limit(edition));
        let none = terms::schedule_zero(self.schedule);
        let made = terms::schedule_ok(edition::keeps_terms(edition), self.schedule);
        terms::terms_valid(self.offer.terms)
            && money::in_total_range(self.offer.repaid)
            && self.offer.status <= terms::DEFAULTED
            && sound
            && (none || made)
    }

    // Whether every number is 0.
    // By its three parts and not by `==`: the clause `whole` is the negotiation's.
    #[tactic(auto, unfolding(crate::specs::Offer::deal_zero))]
    pub fn zero(self) -> bool
        ensures tested { result ≡ deal_zero self }
        ensures whole { Whole round_slots self.negotiation }
    {
        let zero = self.negotiation.zero();
        self.offer.zero() && zero && terms::schedule_zero(self.schedule)
    }

    // Whether the row can stand at a place: sound where the place is in use, else zero.
    pub fn fits(self, edition: u32, used: bool) -> bool
        ensures tested { result ≡ cond used (deal_sound edition self) (deal_zero self) }
        ensures whole { Whole round_slots self.negotiation }
    {
        if used {
            self.sound(edition)
        } else {
            self.zero()
        }
    }

    // Settlement's part: the offer is Accepted and funded now, and so is its negotiation if it still runs.
    #[tactic(auto, unfolding(crate::specs::Offer::settled_deal))]
    pub fn settled(mut self, now: u64) -> Deal
        ensures { result ≡ settled_deal now self }
    {
        self.offer.status = terms::ACCEPTED;
        self.offer.funded = now;
        self.negotiation = self.negotiation.accepted();
        self
    }

    // The lender's round: the offer takes its terms.
    #[tactic(auto, unfolding(crate::specs::Offer::amended_deal))]
    pub fn amended(mut self, now: u64, window: u64, t: Terms) -> Deal
        ensures { result ≡ amended_deal now window t self }
    {
        self.offer.terms = t;
        self.negotiation = self
            .negotiation
            .added(Round::new(now, t, negotiation::LENDER), window);
        self
    }

    // The originator's round: the offer keeps the lender's terms.
    #[tactic(auto, unfolding(crate::specs::Offer::countered_deal))]
    pub fn countered(mut self, now: u64, window: u64, t: Terms) -> Deal
        ensures { result ≡ countered_deal now window t self }
    {
        self.negotiation = self
            .negotiation
            .added(Round::new(now, t, negotiation::ORIGINATOR), window);
        self
    }

    // Whether the offer is still Pending.
    fn pending(self) -> bool
        ensures { result ≡ pending self }
    {
        self.offer.status == terms::PENDING
    }

    // What stands against an agreement, if anything does.
    pub fn agreement_checks(
        self,
        now: u64,
        paper: SeenInvoice,
        lender: SeenAccount,
        originator: SeenAccount,
    ) -> Result<(), Refusal>
        ensures { result ≡ passing (agreement_checks self now paper lender originator) }
    {
        if !paper.here {
            return Err(Refusal::NotFound);
        }
        if paper.row.status != invoice::PENDING {
            return Err(Refusal::InvalidTransition);
        }
        if self.offer.expired(now) {
            return Err(Refusal::OfferExpired);
        }
        if !lender.here {
            return Err(Refusal::NotFound);
        }
        if lender.row.blacklisted {
            return Err(Refusal::Blacklisted);
        }
        if !originator.here {
            return Err(Refusal::NotFound);
        }
        if originator.row.blacklisted {
            return Err(Refusal::Blacklisted);
        }
        Ok(())
    }
}

impl Row for Deal {
    ghost empty = { no_deal };

    fn empty() -> Deal {
        Deal::none()
    }
}

// A row looked up: whether it is there, and the row, which is zero where it is not.
pub type SeenDeal = Seen<Deal>;

// The lender takes the offer back.
pub fn withdraw(seen: SeenDeal, caller: u64) -> Result<Deal, Refusal>
    ensures { result ≡ outcome (withdraw_of seen caller) }
{
    if !seen.here {
        return Err(Refusal::NotFound);
    }
    if seen.row.offer.lender != caller {
        return Err(Refusal::Unauthorized);
    }
    if !seen.row.pending() {
        return Err(Refusal::InvalidTransition);
    }
    let mut withdrawn = seen.row;
    withdrawn.offer.status = terms::REJECTED;
    Ok(withdrawn)
}

// The originator rejects the offer.
pub fn reject(seen: SeenDeal, caller: u64, paper: SeenInvoice) -> Result<Deal, Refusal>
    ensures { result ≡ outcome (reject_of seen caller paper) }
{
    if !seen.here {
        return Err(Refusal::NotFound);
    }
    if !seen.row.pending() {
        return Err(Refusal::InvalidTransition);
    }
    if !paper.here {
        return Err(Refusal::NotFound);
    }
    if paper.row.originator != caller {
        return Err(Refusal::Unauthorized);
    }
    let mut rejected = seen.row;
    rejected.offer.status = terms::REJECTED;
    Ok(rejected)
}

// What stands against an acceptance before it is settled, if anything does.
pub fn accept_checks(
    seen: SeenDeal,
    now: u64,
    caller: u64,
    paper: SeenInvoice,
) -> Result<(), Refusal>
    ensures { result ≡ passing (accept_checks seen now caller paper) }
{
    if !seen.here {
        return Err(Refusal::NotFound);
    }
    if !seen.row.pending() {
        return Err(Refusal::InvalidTransition);
    }
    if seen.row.offer.expired(now) {
        return Err(Refusal::OfferExpired);
    }
    if !paper.here {
        return Err(Refusal::NotFound);
    }
    let invoice = paper.row;
    if invoice.originator != caller {
        return Err(Refusal::Unauthorized);
    }
    if invoice.status != invoice::PENDING {
        return Err(Refusal::InvalidTransition);
    }
    Ok(())
}

// What stands against a round of either party once its author is known, if anything does.
fn round_checks(
    edition: u32,
    seen: SeenDeal,
    now: u64,
    t: Terms,
    round: u32,
    paper: SeenInvoice,
) -> Result<(), Refusal>
    ensures { result ≡ passing (round_checks edition seen now t round paper) }
{
    if edition::holds_amount(edition) && !paper.row.covers(t) {
        return Err(Refusal::InvalidInput);
    }
    let limit = edition::round_limit(edition);
    seen.row
        .negotiation
        .negotiable(limit, seen.row.pending(), now, round)
}

// What stands against the lender's round, if anything does. The arguments are the command's own, as its definition takes them: a struct
// of them would only name them twice.
pub fn amend_checks(
    edition: u32,
    seen: SeenDeal,
    now: u64,
    caller: u64,
    lender: Account,
    t: Terms,
    round: u32,
    paper: SeenInvoice,
) -> Result<(), Refusal>
    ensures { result ≡ passing (amend_checks edition seen now caller lender t round paper) }
{
    if lender.blacklisted {
        return Err(Refusal::Blacklisted);
    }
    if !terms::terms_valid(t) {
        return Err(Refusal::InvalidInput);
    }
    if !seen.here {
        return Err(Refusal::NotFound);
    }
    if seen.row.offer.lender != caller {
        return Err(Refusal::Unauthorized);
    }
    if edition::holds_amount(edition) && !paper.here {
        return Err(Refusal::NotFound);
    }
    round_checks(edition, seen, now, t, round, paper)
}

// What stands against the originator's round, if anything does.
pub fn counter_checks(
    edition: u32,
    seen: SeenDeal,
    now: u64,
    caller: u64,
    originator: Account,
    t: Terms,
    round: u32,
    paper: SeenInvoice,
) -> Result<(), Refusal>
    ensures { result ≡ passing (counter_checks edition seen now caller originator t round paper) }
{
    if originator.blacklisted {
        return Err(Refusal::Blacklisted);
    }
    if !terms::terms_valid(t) {
        return Err(Refusal::InvalidInput);
    }
    if !seen.here {
        return Err(Refusal::NotFound);
    }
    if !paper.here {
        return Err(Refusal::NotFound);
    }
    if paper.row.originator != caller {
        return Err(Refusal::Unauthorized);
    }
    round_checks(edition, seen, now, t, round, paper)
}

// The negotiation ends, as Closed or as Expired.
pub fn close(seen: SeenDeal, now: u64, caller: u64, paper: SeenInvoice) -> Result<Deal, Refusal>
    ensures { result ≡ outcome (close_of seen now caller paper) }
{
    if seen.row.negotiation.outcome != negotiation::NONE {
        return Err(Refusal::InvalidTransition);
    }
    let standing = seen.row.negotiation.status(seen.row.pending(), now);
    if standing == negotiation::NONE {
        return Err(Refusal::NotFound);
    }
    if standing == negotiation::CLOSED {
        return Err(Refusal::InvalidTransition);
    }
    let outsider = standing == negotiation::OPEN && seen.row.offer.lender != caller;
    if outsider && !paper.here {
        return Err(Refusal::NotFound);
    }
    if outsider && paper.row.originator != caller {
        return Err(Refusal::Unauthorized);
    }
    let mut row = seen.row;
    row.negotiation = row.negotiation.closed(outcome_at(standing));
    Ok(row)
}

// What a close stores of a negotiation that is Expired or Open.
#[tactic(auto, unfolding(crate::specs::Rules::outcome_at, refusal::specs::Choice::pick))]
fn outcome_at(status: u32) -> u32
    ensures { result ≡ outcome_at status }
{
    if status == negotiation::EXPIRED {
        negotiation::EXPIRED
    } else {
        negotiation::CLOSED
    }
}

// What stands against a schedule before its installments are known, if anything does.
fn schedule_checks(
    edition: u32,
    seen: SeenDeal,
    now: u64,
    caller: u64,
    count: u32,
    code: u32,
    first: u64,
    kind: u64,
    paper: SeenInvoice,
) -> Result<(), Refusal>
    ensures { result ≡ passing (schedule_checks edition seen now caller count code first kind paper) }
{
    let listed = terms::kind_listed(edition::keeps_terms(edition), kind);
    if !terms::count_valid(count) || !listed || first <= now || !terms::code_listed(code) {
        return Err(Refusal::InvalidInput);
    }
    if !seen.here {
        return Err(Refusal::NotFound);
    }
    let status = seen.row.offer.status;
    if status == terms::REJECTED || status == terms::REPAID || status == terms::DEFAULTED {
        return Err(Refusal::InvalidTransition);
    }
    if !paper.here {
        return Err(Refusal::NotFound);
    }
    if !(seen.row.offer.lender == caller || paper.row.originator == caller) {
        return Err(Refusal::Unauthorized);
    }
    Ok(())
}

// The installments are set; a second schedule replaces the first.
pub fn schedule(
    edition: u32,
    seen: SeenDeal,
    now: u64,
    caller: u64,
    count: u32,
    code: u32,
    first: u64,
    kind: u64,
    paper: SeenInvoice,
) -> Result<Deal, Refusal>
    ensures { result ≡ outcome (schedule_of edition seen now caller count code first kind paper) }
{
    schedule_checks(edition, seen, now, caller, count, code, first, kind, paper)?;
    let terms = seen.row.offer.terms;
    let listed = kind as u32;
    let Some(installment) = terms::installment(terms, listed, count) else {
        return Err(Refusal::InvalidInput);
    };
    if money::is_zero(installment) {
        return Err(Refusal::InvalidInput);
    }
    let kept = edition::keeps_terms(edition);
    let mut row = seen.row;
    row.schedule = Schedule::made(kept, terms, listed, count, code, first, installment);
    Ok(row)
}

// Repayment sets the status.
pub fn update_status(seen: SeenDeal, allowed: bool, code: u32) -> Result<Deal, Refusal>
    ensures { result ≡ outcome (status_update_of seen allowed code) }
{
    if !allowed {
        return Err(Refusal::Unauthorized);
    }
    if terms::DEFAULTED < code {
        return Err(Refusal::InvalidInput);
    }
    if !seen.here {
        return Err(Refusal::NotFound);
    }
    let mut row = seen.row;
    row.offer.status = code;
    Ok(row)
}

// Repayment sets the amount repaid.
pub fn update_repaid(seen: SeenDeal, allowed: bool, amount: i64) -> Result<Deal, Refusal>
    ensures { result ≡ outcome (repaid_update_of seen allowed amount) }
{
    if !allowed {
        return Err(Refusal::Unauthorized);
    }
    if !seen.here {
        return Err(Refusal::NotFound);
    }
    if !money::in_total_range(amount) {
        return Err(Refusal::OutOfRange);
    }
    let mut row = seen.row;
    row.offer.repaid = amount;
    Ok(row)
}

// What stands against a new offer, if anything does.
pub fn create_checks(
    caller: u64,
    lender: Account,
    t: Terms,
    paper: SeenInvoice,
    exists: bool,
    full: bool,
) -> Result<(), Refusal>
    ensures { result ≡ passing (create_checks caller lender t paper exists full) }
{
    if lender.blacklisted {
        return Err(Refusal::Blacklisted);
    }
    if !terms::terms_valid(t) {
        return Err(Refusal::InvalidInput);
    }
    if !paper.here {
        return Err(Refusal::NotFound);
    }
    if paper.row.status != invoice::PENDING {
        return Err(Refusal::InvalidTransition);
    }
    if paper.row.originator == caller {
        return Err(Refusal::InvalidInput);
    }
    if !paper.row.covers(t) {
        return Err(Refusal::InvalidInput);
    }
    if exists {
        return Err(Refusal::AlreadyExists);
    }
    if full {
        return Err(Refusal::NoRoom);
    }
    Ok(())
}
