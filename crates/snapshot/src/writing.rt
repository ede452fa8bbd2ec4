// From rows to bytes, by a pen that may have no ink: the same walk finds out whether there is room, and then writes.
ghost use Rattle.std.specs.Prelude.{◌≡◌, true, false, ◌||◌, ◌≤◌, take};
ghost use Rattle.sheet.specs.Sheet.{pen_at};
ghost use Rattle.codec.specs.Codec.{rows};
ghost use Rattle.codec.specs.Puts.{Puts};
ghost use Rattle.table.specs.Shelf.{table_of};
ghost use Rattle.edition.specs.Edition.{round_limit, keeps_terms};
ghost use Rattle.terms.specs.Schedule.{schedule_zero, schedule_ok};
ghost use Rattle.negotiation.specs.Rounds.{round_slots, negotiation_sound};
ghost use Rattle.offer.specs.Offer.{deal_sound};
ghost use Rattle.shelves.specs.Accounts.{accounts_of};
ghost use Rattle.shelves.specs.Invoices.{invoices_of};
ghost use Rattle.shelves.specs.Offers.{deals_of, deals_test};
ghost use Rattle.book.specs.Stored.{model_of, book_test};
ghost use Rattle.snapshot.specs.Layout.{settings, totals, purse, account, invoice, terms, offer, round, negotiation, kept, schedule, deal, layout};

use crate::rows::Row;
use crate::tags;
use account::{Account, Purse};
use book::Book;
use invoice::Invoice;
use negotiation::{Negotiation, Round};
use offer::{Deal, Offer};
use settings::Settings;
use sheet::Pen;
use shelves::{Accounts, Invoices, Offers};
use terms::{Schedule, Terms};
use totals::Totals;

fn put_settings(out: &mut [u8], pen: Pen, ink: bool, row: Settings) -> Pen
    ensures { Puts ink (settings row.edition) row out.old pen out.new result }
{
    let p = codec::put(out, pen, ink, tags::WINDOW, row.window);
    let q = codec::put(out, p, ink, tags::SEATS, row.seats);
    let u = codec::put(out, q, ink, tags::THRESHOLD, row.threshold);
    let v = codec::put(out, u, ink, tags::PAUSED, row.paused);
    let w = codec::put(out, v, ink, tags::APPOINTED, row.appointed);
    codec::put(out, w, ink, tags::REPAYER, row.repayer)
}

fn put_totals(out: &mut [u8], pen: Pen, ink: bool, row: Totals) -> Pen
    ensures { Puts ink totals row out.old pen out.new result }
{
    let p = codec::put(out, pen, ink, tags::OFFERS_MADE, row.offers);
    let q = codec::put(out, p, ink, tags::FINANCED, row.financed);
    let u = codec::put(out, q, ink, tags::REPAID_TOTAL, row.repaid);
    codec::put(out, u, ink, tags::FEES, row.fees)
}

fn put_purse(out: &mut [u8], pen: Pen, ink: bool, row: Purse) -> Pen
    ensures { Puts ink purse row out.old pen out.new result }
{
    let p = codec::put(out, pen, ink, tags::BALANCE, row.balance);
    let q = codec::put(out, p, ink, tags::ALLOWANCE, row.allowance);
    let u = codec::put(out, q, ink, tags::OFFERED, row.offered);
    codec::put(out, u, ink, tags::ACCEPTED, row.accepted)
}

pub(crate) fn put_account(out: &mut [u8], pen: Pen, ink: bool, id: u64, row: Account) -> Pen
    ensures { Puts ink account (id, row) out.old pen out.new result }
{
    let p = codec::put(out, pen, ink, tags::ID, id);
    let q = put_purse(out, p, ink, row.purse);
    let u = codec::put(out, q, ink, tags::OFFERS_PENDING, row.pending);
    let v = codec::put(out, u, ink, tags::OFFERS_REPAID, row.repaid);
    codec::put(out, v, ink, tags::BLACKLISTED, row.blacklisted)
}

pub(crate) fn put_invoice(out: &mut [u8], pen: Pen, ink: bool, id: u64, row: Invoice) -> Pen
    ensures { Puts ink invoice (id, row) out.old pen out.new result }
{
    let p = codec::put(out, pen, ink, tags::ID, id);
    let q = codec::put(out, p, ink, tags::ORIGINATOR, row.originator);
    let u = codec::put(out, q, ink, tags::AMOUNT, row.amount);
    codec::put(out, u, ink, tags::INVOICE_STATUS, row.status)
}

fn put_terms(out: &mut [u8], pen: Pen, ink: bool, row: Terms) -> Pen
    ensures { Puts ink terms row out.old pen out.new result }
{
    let p = codec::put(out, pen, ink, tags::AMOUNT, row.amount);
    let q = codec::put(out, p, ink, tags::RATE, row.rate);
    codec::put(out, q, ink, tags::DURATION, row.duration)
}

fn put_offer(out: &mut [u8], pen: Pen, ink: bool, row: Offer) -> Pen
    ensures { Puts ink offer row out.old pen out.new result }
{
    let p = codec::put(out, pen, ink, tags::INVOICE, row.invoice);
    let q = codec::put(out, p, ink, tags::LENDER, row.lender);
    let u = put_terms(out, q, ink, row.terms);
    let v = codec::put(out, u, ink, tags::EXPIRES, row.expires);
    let w = codec::put(out, v, ink, tags::STATUS, row.status);
    let x = codec::put(out, w, ink, tags::FUNDED, row.funded);
    codec::put(out, x, ink, tags::REPAID, row.repaid)
}

fn put_round(out: &mut [u8], pen: Pen, ink: bool, row: Round) -> Pen
    ensures { Puts ink round row out.old pen out.new result }
{
    let p = codec::put(out, pen, ink, tags::PARTY, row.party);
    let q = put_terms(out, p, ink, row.terms());
    codec::put(out, q, ink, tags::TIME, row.time)
}

fn put_rounds(out: &mut [u8], pen: Pen, ink: bool, edition: u32, n: usize, list: [Round; 16]) -> Pen
    requires { n ≤ round_limit edition }
    ensures { Puts ink (rows 0x97 (round_limit edition) round) (take n list) out.old pen out.new result }
{
    let mut p = codec::put(out, pen, ink, tags::ROUNDS, n as u64);
    for i in 0..n {
        p = put_round(out, p, ink, list[i]);
    }
    p
}

fn put_negotiation(out: &mut [u8], pen: Pen, ink: bool, edition: u32, row: Negotiation) -> Pen
    requires { negotiation_sound round_slots (round_limit edition) row ≡ true }
    ensures { Puts ink (negotiation edition) row out.old pen out.new result }
{
    let p = codec::put(out, pen, ink, tags::DEADLINE, row.deadline);
    let q = codec::put(out, p, ink, tags::OUTCOME, row.outcome);
    put_rounds(out, q, ink, edition, row.len as usize, row.rounds)
}

fn put_kept(out: &mut [u8], pen: Pen, ink: bool, edition: u32, row: Schedule) -> Pen
    requires { schedule_zero row || schedule_ok (keeps_terms edition) row ≡ true }
    ensures { Puts ink (kept edition) (row.amount, (row.rate, row.kind)) out.old pen out.new result }
{
    if !edition::keeps_terms(edition) {
        return pen;
    }
    let p = codec::put(out, pen, ink, tags::KEPT_AMOUNT, row.amount);
    let q = codec::put(out, p, ink, tags::KEPT_RATE, row.rate);
    codec::put(out, q, ink, tags::KIND, row.kind)
}

fn put_schedule(out: &mut [u8], pen: Pen, ink: bool, edition: u32, row: Schedule) -> Pen
    requires { schedule_zero row || schedule_ok (keeps_terms edition) row ≡ true }
    ensures { Puts ink (schedule edition) row out.old pen out.new result }
{
    let p = codec::put(out, pen, ink, tags::COUNT, row.count);
    let q = codec::put(out, p, ink, tags::CODE, row.code);
    let u = codec::put(out, q, ink, tags::INSTALLMENT, row.installment);
    let v = codec::put(out, u, ink, tags::FIRST_DUE, row.first);
    put_kept(out, v, ink, edition, row)
}

fn put_deal(out: &mut [u8], pen: Pen, ink: bool, edition: u32, id: u64, row: Deal) -> Pen
    requires { deal_sound edition row ≡ true }
    ensures { Puts ink (deal edition) (id, row) out.old pen out.new result }
{
    let p = codec::put(out, pen, ink, tags::ID, id);
    let q = put_offer(out, p, ink, row.offer);
    let u = put_negotiation(out, q, ink, edition, row.negotiation);
    put_schedule(out, u, ink, edition, row.schedule)
}

// A table's number of rows, and then the rows.
fn put_rows<R: Row>(
    out: &mut [u8],
    pen: Pen,
    ink: bool,
    tag: u8,
    ids: &[u64; 64],
    list: &[R; 64],
    n: usize,
) -> Pen
    requires { n ≤ 64 }
    ensures { Puts ink (rows tag 64 R.fields) (table_of ids.now list.now n) out.old pen out.new result }
{
    let mut p = codec::put(out, pen, ink, tag, n as u64);
    for i in 0..n {
        p = list[i].put(out, p, ink, ids[i]);
    }
    p
}

fn put_accounts(out: &mut [u8], pen: Pen, ink: bool, table: Accounts) -> Pen
    requires { table.count ≤ 64 }
    ensures { Puts ink (rows 0x70 64 account) (accounts_of table) out.old pen out.new result }
{
    put_rows(
        out,
        pen,
        ink,
        tags::ACCOUNTS,
        &table.ids,
        &table.rows,
        table.count,
    )
}

fn put_invoices(out: &mut [u8], pen: Pen, ink: bool, table: Invoices) -> Pen
    requires { table.count ≤ 64 }
    ensures { Puts ink (rows 0x80 64 invoice) (invoices_of table) out.old pen out.new result }
{
    put_rows(
        out,
        pen,
        ink,
        tags::INVOICES,
        &table.ids,
        &table.rows,
        table.count,
    )
}

fn put_offers(out: &mut [u8], pen: Pen, ink: bool, edition: u32, table: Offers) -> Pen
    requires { deals_test edition table ≡ true }
    ensures { Puts ink (rows 0x90 64 (deal edition)) (deals_of table) out.old pen out.new result }
{
    let mut p = codec::put(out, pen, ink, tags::OFFERS, table.count as u64);
    for i in 0..table.count {
        let row = Deal {
            offer: table.rows[i],
            negotiation: table.negotiations[i],
            schedule: table.schedules[i],
        };
        p = put_deal(out, p, ink, edition, table.ids[i], row);
    }
    p
}

pub(crate) fn put_book(out: &mut [u8], ink: bool, b: Book) -> Pen
    requires { book_test b ≡ true }
    ensures { Puts ink layout (model_of b) out.old (pen_at 0 false) out.new result }
{
    let start = Pen {
        at: 0,
        short: false,
    };
    let e = codec::put(out, start, ink, tags::EDITION, b.settings.edition as u64);
    let p = put_settings(out, e, ink, b.settings);
    let q = put_totals(out, p, ink, b.totals);
    let u = put_accounts(out, q, ink, b.accounts);
    let v = put_invoices(out, u, ink, b.invoices);
    put_offers(out, v, ink, b.settings.edition, b.offers)
}
