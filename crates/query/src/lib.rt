// What can be asked of a book. Every query tests the book first and leaves it as it is.
#![tactic(auto, unfolding(refusal::specs::Rule::answered, refusal::specs::Rule::after, refusal::specs::Refusal::first, refusal::specs::Choice::pick))]

ghost use Rattle.std.specs.Prelude.{◌≡◌, true, false, [], ◌∷◌, ◌*◌, ◌≤◌, length, IfOk, MatchResult};
ghost use Rattle.refusal.specs.Refusal.{book_unsound};
ghost use Rattle.refusal.specs.Rule.{answered};
ghost use Rattle.negotiation.specs.Rounds.{no_negotiation};
ghost use Rattle.book.specs.Stored.{model_of, book_test, Shelved};
ghost use Rattle.rules.specs.Model.{offer_in};
ghost use Rattle.lists.specs.Listing.{listed_says};
ghost use Rattle.lists.specs.Active.{active_of};
ghost use Rattle.offer.specs.Rules.{standing};
ghost use Rattle.lists.specs.declared.Wanted.TheVariants.{Invoice, Lender, Status, PendingOf, All, Page};
ghost use Rattle.installments.specs.Arguments.{due_as};
ghost use Rattle.query.specs.Numbers.{offers_only, schedule_numbers, lender_numbers, totals_numbers, due_in};
ghost use Rattle.query.specs.Reads.{reply, offers_in, deal_read, list_read, asked, on_sound, offer_read, schedule_read, negotiation_read, deadline_read, status_read, due_order, due_read, lender_read, active_read, count_read, totals_read, window_read, seats_read, threshold_read, pause_read, lender_order, totals_order, schedule_values};
ghost use Rattle.query.specs.Says.{number_says, offer_says, schedule_says, lender_says, totals_says, negotiation_told, negotiation_says, installment_says};
ghost use Rattle.query.specs.Questions.{twelve, purse_order, reply_to, Replies, threes, replied, answers_read, answered_says};

use account::{Account, SeenAccount};
use book::Book;
use installments::Due;
use lists::{OfferNumbers, OfferRows, Wanted};
use negotiation::Negotiation;
use offer::{Deal, SeenDeal};
use refusal::Refusal;
use settings::Settings;
use shelves::Offers;
use terms::Schedule;
use totals::Totals;

// The book's totals.
#[derive(Clone, Copy)]
pub struct TotalsNumbers {
    pub offers: u64,
    pub financed: u64,
    pub repaid: u64,
    pub fees: u64,
}

// The numbers of a schedule: how many installments, the code of their period, the amount of the first, when it is due, their kind.
#[derive(Clone, Copy)]
pub struct ScheduleNumbers {
    pub count: u64,
    pub code: u64,
    pub installment: u64,
    pub first: u64,
    pub kind: u64,
}

// A lender's figures.
#[derive(Clone, Copy)]
pub struct LenderNumbers {
    pub offered: u64,
    pub accepted: u64,
    pub pending: u64,
    pub repaid: u64,
}

impl From<Schedule> for ScheduleNumbers {
    // The five numbers of a schedule.
    fn from(s: Schedule) -> ScheduleNumbers
        ensures { result ≡ schedule_numbers s }
    {
        ScheduleNumbers {
            count: s.count as u64,
            code: s.code as u64,
            installment: money::bits(s.installment),
            first: s.first,
            kind: s.kind as u64,
        }
    }
}

impl From<Account> for LenderNumbers {
    // The four figures of an account.
    fn from(a: Account) -> LenderNumbers
        ensures { result ≡ lender_numbers a }
    {
        LenderNumbers {
            offered: money::bits(a.purse.offered),
            accepted: money::bits(a.purse.accepted),
            pending: a.pending as u64,
            repaid: a.repaid as u64,
        }
    }
}

impl From<Totals> for TotalsNumbers {
    // The four totals.
    fn from(t: Totals) -> TotalsNumbers
        ensures { result ≡ totals_numbers t }
    {
        TotalsNumbers {
            offers: t.offers as u64,
            financed: money::bits(t.financed),
            repaid: money::bits(t.repaid),
            fees: money::bits(t.fees),
        }
    }
}

// 15 where the book is unsound; it comes before whatever else a query refuses.
fn tested(book: Book) -> Result<(), Refusal>
    ensures test { MatchResult result (λ _. book_test book ≡ true) (λ e. (book_test book ≡ false) × (e ≡ book_unsound)) }
    ensures shelved { IfOk result (λ _. Shelved book) }
{
    if !book.sound() {
        return Err(Refusal::BookUnsound);
    }
    Ok(())
}

// ── Lists ──

// The offers alone, of the table that has their negotiations and schedules too.
pub fn offers_only(t: Offers) -> OfferRows
    ensures { result ≡ offers_only t }
{
    let ids = t.ids;
    let rows = t.rows;
    OfferRows {
        ids,
        rows,
        count: t.count,
    }
}

// The offers asked for, into the buffer.
pub fn list(book: Book, w: Wanted, out: &mut [u64]) -> Result<usize, Refusal>
    ensures { (listed_says result, out.new) ≡ list_read book w out.old }
{
    tested(book)?;
    offers_only(book.offers).list(w, out)
}

// The offers on an invoice.
// Six functions over one `list`, by the names of document 01's queries: one more parameter in their place would say no less.
pub fn get_offers_by_invoice(book: Book, invoice: u64, out: &mut [u64]) -> Result<usize, Refusal>
    ensures { (listed_says result, out.new) ≡ list_read book (Invoice invoice) out.old }
{
    list(book, Wanted::Invoice(invoice), out)
}

// A lender's offers.
pub fn get_offers_by_lender(book: Book, lender: u64, out: &mut [u64]) -> Result<usize, Refusal>
    ensures { (listed_says result, out.new) ≡ list_read book (Lender lender) out.old }
{
    list(book, Wanted::Lender(lender), out)
}

// The offers of a status.
pub fn get_offers_by_status(book: Book, status: u32, out: &mut [u64]) -> Result<usize, Refusal>
    ensures { (listed_says result, out.new) ≡ list_read book (Status status) out.old }
{
    list(book, Wanted::Status(status), out)
}

// The Pending offers on an invoice.
pub fn get_pending_offers_by_invoice(
    book: Book,
    invoice: u64,
    out: &mut [u64],
) -> Result<usize, Refusal>
    ensures { (listed_says result, out.new) ≡ list_read book (PendingOf invoice) out.old }
{
    list(book, Wanted::PendingOf(invoice), out)
}

// Every offer.
pub fn get_all_offers(book: Book, out: &mut [u64]) -> Result<usize, Refusal>
    ensures { (listed_says result, out.new) ≡ list_read book All out.old }
{
    list(book, Wanted::All, out)
}

// At most `limit` offers from a place on.
pub fn get_offers_paginated(
    book: Book,
    offset: u64,
    limit: u64,
    out: &mut [u64],
) -> Result<usize, Refusal>
    ensures { (listed_says result, out.new) ≡ list_read book (Page offset limit) out.old }
{
    list(book, Wanted::Page(offset, limit), out)
}

// ── One offer ──

// One offer; 4 where it is absent.
pub fn get_offer(book: Book, id: u64) -> Result<OfferNumbers, Refusal>
    ensures { offer_says result ≡ asked book (offer_read id) }
{
    tested(book)?;
    let seen = book.offers.see(Some(id));
    if !seen.here {
        return Err(Refusal::NotFound);
    }
    Ok(OfferNumbers::of(id, seen.row.offer))
}

// An offer's schedule, if it has one: an absent schedule is no refusal.
#[tactic(auto, unfolding(crate::specs::Reads::schedule_values, refusal::specs::Rule::answered, refusal::specs::Rule::after, refusal::specs::Refusal::first, refusal::specs::Choice::pick))]
pub fn get_schedule(book: Book, id: u64) -> Result<Option<ScheduleNumbers>, Refusal>
    ensures { schedule_says result ≡ asked book (schedule_read id) }
{
    tested(book)?;
    let schedule = book.offers.see(Some(id)).row.schedule;
    if terms::schedule_zero(schedule) {
        return Ok(None);
    }
    Ok(Some(ScheduleNumbers::from(schedule)))
}

// An offer's negotiation, of a book that was tested.
// `Shelved` is asked and not held by a type: `Book::apply` answers 15 on any book, so a book of any rows has to be a value.
pub fn negotiation_of(book: Book, id: u64) -> Negotiation
    requires { Shelved book }
    ensures { result ≡ (offer_in (model_of book) id).row.negotiation }
{
    book.offers.see(Some(id)).row.negotiation
}

// An offer's negotiation, which has no rounds and deadline 0 where there is none.
pub fn get_negotiation(book: Book, id: u64) -> Result<Negotiation, Refusal>
    ensures { negotiation_says result ≡ answered negotiation_told no_negotiation (on_sound book (negotiation_read id)) }
{
    tested(book)?;
    Ok(negotiation_of(book, id))
}

// When an offer's negotiation ends.
pub fn get_negotiation_deadline(book: Book, id: u64) -> Result<u64, Refusal>
    ensures { number_says result ≡ asked book (deadline_read id) }
{
    tested(book)?;
    Ok(negotiation_of(book, id).deadline)
}

// Where an offer's negotiation stands at a time.
pub fn get_negotiation_status(book: Book, now: u64, id: u64) -> Result<u64, Refusal>
    ensures { number_says result ≡ asked book (status_read now id) }
{
    tested(book)?;
    let row = book.offers.see(Some(id)).row;
    let pending = row.offer.status == terms::PENDING;
    Ok(row.negotiation.status(pending, now) as u64)
}

// The installment that is due and what is owed on it; 0 and 0 without a schedule.
#[tactic(auto, unfolding(crate::specs::Numbers::due_in, installments::specs::Arguments::due_as, refusal::specs::Choice::pick))]
fn due(edition: u32, d: Deal, now: u64) -> Due
    ensures { result ≡ due_as (due_in edition d now) }
{
    let none = Due { number: 0, owed: 0 };
    if terms::schedule_zero(d.schedule) {
        return none;
    }
    let kept = edition::keeps_terms(edition);
    terms::due(kept, d.schedule, d.offer.status, d.offer.repaid, now).unwrap_or(none)
}

// The installment that is due and the sum still owed on it, 0 and 0 where none is.
#[tactic(auto, unfolding(installments::specs::Arguments::due_as, refusal::specs::Rule::answered, refusal::specs::Rule::after, refusal::specs::Refusal::first, refusal::specs::Choice::pick))]
pub fn get_installment_due(book: Book, now: u64, id: u64) -> Result<Due, Refusal>
    ensures { installment_says result ≡ asked book (due_read now id) }
{
    tested(book)?;
    let row = book.offers.see(Some(id)).row;
    Ok(due(book.settings.edition, row, now))
}

// ── Lenders ──

// A lender's figures, zeros where it has no account.
pub fn get_lender_stats(book: Book, lender: u64) -> Result<LenderNumbers, Refusal>
    ensures { lender_says result ≡ asked book (lender_read lender) }
{
    tested(book)?;
    let row = book.accounts.see(Some(lender)).row;
    Ok(LenderNumbers::from(row))
}

// What a lender has in Accepted and Financed offers, of a book that was tested.
pub fn active_of(book: Book, lender: u64) -> u64
    requires shelved { Shelved book }
    requires sound { book_test book ≡ true }
    ensures { result ≡ active_of lender (offers_in (model_of book)) }
{
    offers_only(book.offers).active_total(lender)
}

// What a lender has in Accepted and Financed offers.
pub fn get_lender_active_total(book: Book, lender: u64) -> Result<u64, Refusal>
    ensures { number_says result ≡ asked book (active_read lender) }
{
    tested(book)?;
    Ok(active_of(book, lender))
}

// ── The book ──

// How many offers there are.
pub fn get_offers_count(book: Book) -> Result<u64, Refusal>
    ensures { number_says result ≡ asked book count_read }
{
    tested(book)?;
    Ok(book.offers.count as u64)
}

// The book's totals.
pub fn get_stats(book: Book) -> Result<TotalsNumbers, Refusal>
    ensures { totals_says result ≡ asked book totals_read }
{
    tested(book)?;
    Ok(TotalsNumbers::from(book.totals))
}

// How long a negotiation stays open.
pub fn get_negotiation_window(book: Book) -> Result<u64, Refusal>
    ensures { number_says result ≡ asked book window_read }
{
    tested(book)?;
    Ok(book.settings.window)
}

// The seats that may sign, a bit for each.
pub fn get_signers(book: Book) -> Result<u64, Refusal>
    ensures { number_says result ≡ asked book seats_read }
{
    tested(book)?;
    Ok(book.settings.seats as u64)
}

// How many seats an admin command takes.
pub fn get_threshold(book: Book) -> Result<u64, Refusal>
    ensures { number_says result ≡ asked book threshold_read }
{
    tested(book)?;
    Ok(book.settings.threshold as u64)
}

// 1 while the book is paused.
pub fn contract_is_paused(book: Book) -> Result<u64, Refusal>
    ensures { number_says result ≡ asked book pause_read }
{
    tested(book)?;
    Ok(u64::from(book.settings.paused))
}

// ── Many questions ──

// An answer's number, how many values follow, and ten places for them.
fn words(number: u64, values: &[u64]) -> [u64; 12]
    requires { length values.now ≤ 10 }
    ensures { result ≡ twelve (number, values.now) }
{
    let mut out = [0; 12];
    out[0] = number;
    out[1] = values.len() as u64;
    out[2..2 + values.len()].copy_from_slice(values);
    out
}

fn offer_words(id: u64, deal: SeenDeal) -> [u64; 12]
    ensures { result ≡ twelve (answered reply [] (deal_read id deal)) }
{
    if !deal.here {
        return words(Refusal::NotFound.number(), &[]);
    }
    words(0, &OfferNumbers::of(id, deal.row.offer).in_order())
}

fn account_words(account: SeenAccount) -> [u64; 12]
    ensures { result ≡ twelve (0, purse_order account.row) }
{
    let purse = account.row.purse;
    let balance = money::bits(purse.balance);
    let allowance = money::bits(purse.allowance);
    let offered = money::bits(purse.offered);
    let accepted = money::bits(purse.accepted);
    words(0, &[balance, allowance, offered, accepted])
}

fn lender_words(account: SeenAccount) -> [u64; 12]
    ensures { result ≡ twelve (0, lender_order (lender_numbers account.row)) }
{
    let n = LenderNumbers::from(account.row);
    words(0, &[n.offered, n.accepted, n.pending, n.repaid])
}

#[tactic(auto, unfolding(crate::specs::Reads::schedule_values, refusal::specs::Choice::pick))]
fn schedule_words(deal: SeenDeal) -> [u64; 12]
    ensures { result ≡ twelve (0, schedule_values deal.row.schedule) }
{
    let schedule = deal.row.schedule;
    if terms::schedule_zero(schedule) {
        return words(0, &[]);
    }
    let n = ScheduleNumbers::from(schedule);
    words(0, &[n.count, n.code, n.installment, n.first, n.kind])
}

fn status_words(deal: SeenDeal, now: u64) -> [u64; 12]
    ensures { result ≡ twelve (0, standing deal now ∷ []) }
{
    let row = deal.row;
    let n = row
        .negotiation
        .status(row.offer.status == terms::PENDING, now);
    words(0, &[n as u64])
}

#[tactic(auto, unfolding(installments::specs::Arguments::due_as))]
fn due_words(edition: u32, deal: SeenDeal, now: u64) -> [u64; 12]
    ensures { result ≡ twelve (0, due_order (due_in edition deal.row now)) }
{
    let d = due(edition, deal.row, now);
    words(0, &[d.number, d.owed])
}

fn totals_words(totals: Totals) -> [u64; 12]
    ensures { result ≡ twelve (0, totals_order (totals_numbers totals)) }
{
    let n = TotalsNumbers::from(totals);
    words(0, &[n.offers, n.financed, n.repaid, n.fees])
}

// The answer to one question, of what was seen for it.
fn answer(
    code: u64,
    id: u64,
    time: u64,
    deal: SeenDeal,
    account: SeenAccount,
    totals: Totals,
    settings: Settings,
    count: usize,
) -> [u64; 12]
    ensures { Replies code id time deal account totals settings count result }
{
    match code {
        1 => offer_words(id, deal),
        2 => account_words(account),
        3 => lender_words(account),
        4 => schedule_words(deal),
        5 => words(0, &[deal.row.negotiation.deadline]),
        6 => status_words(deal, time),
        7 => due_words(settings.edition, deal, time),
        8 => words(0, &[count as u64]),
        9 => words(0, &[settings.window]),
        10 => words(0, &[settings.seats as u64]),
        11 => words(0, &[settings.threshold as u64]),
        12 => words(0, &[u64::from(settings.paused)]),
        13 => totals_words(totals),
        _ => words(Refusal::InvalidInput.number(), &[]),
    }
}

// The answer to one question, of a book that was tested.
pub fn lookup(book: Book, code: u64, id: u64, time: u64) -> [u64; 12]
    requires { Shelved book }
    ensures { result ≡ twelve (reply_to code id time (model_of book)) }
{
    let deal = book.offers.see(Some(id));
    let account = book.accounts.see(Some(id));
    answer(
        code,
        id,
        time,
        deal,
        account,
        book.totals,
        book.settings,
        book.offers.count,
    )
}

// Twelve words for each question, from the start of the buffer on. The tables are locals: rows are read where they stand.
fn write(book: Book, questions: &[u64], out: &mut [u64])
    requires shelved { Shelved book }
    requires room { 12 * length (threes questions.now) ≤ length out.old }
    ensures { out.new ≡ replied (threes questions.now) (model_of book) out.old }
{
    let offers = book.offers;
    let accounts = book.accounts;
    for i in 0..questions.len() / 3 {
        let code = questions[3 * i];
        let id = questions[3 * i + 1];
        let time = questions[3 * i + 2];
        let offer = table::spot_by(&offers.ids, offers.count, Some(id));
        let row = Deal {
            offer: offers.rows[offer.at],
            negotiation: offers.negotiations[offer.at],
            schedule: offers.schedules[offer.at],
        };
        let deal = SeenDeal::at(offer.here, row);
        let account = table::spot_by(&accounts.ids, accounts.count, Some(id));
        let seen = SeenAccount::at(account.here, accounts.rows[account.at]);
        let words = answer(
            code,
            id,
            time,
            deal,
            seen,
            book.totals,
            book.settings,
            offers.count,
        );
        lists::put(&mut *out, 12 * i, &words);
    }
}

// Lookups by the thousand: the book is tested once, and each answer is the one that the single query gives.
pub fn answers(book: Book, questions: &[u64], out: &mut [u64]) -> Result<usize, Refusal>
    ensures { (answered_says result, out.new) ≡ answers_read book questions.now out.old }
{
    tested(book)?;
    let asked = questions.len() / 3;
    if out.len() / 12 < asked {
        return Err(Refusal::BufferShort);
    }
    write(book, questions, out);
    Ok(asked)
}
