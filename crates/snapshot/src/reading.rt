// From bytes to rows, by a cursor: once it has refused it stays, so that no row needs a test.
ghost use Rattle.std.specs.Prelude.{◌≡◌, ◌≤◌};
ghost use Rattle.codec.specs.Codec.{rows};
ghost use Rattle.refusal.specs.Refusal.{number, journal_malformed};
ghost use Rattle.codec.specs.Cursor.{cursor};
ghost use Rattle.codec.specs.Cursors.{Takes};
ghost use Rattle.shelves.specs.Accounts.{stored_accounts};
ghost use Rattle.shelves.specs.Invoices.{stored_invoices};
ghost use Rattle.shelves.specs.Offers.{stored_deals};
ghost use Rattle.edition.specs.Edition.{round_limit};
ghost use Rattle.snapshot.specs.Layout.{settings, totals, purse, account, invoice, terms, offer, round, negotiation, kept, schedule, deal};
ghost use Rattle.snapshot.specs.Filling.{FillingTable, Reads, laid_rounds};
ghost use Rattle.snapshot.specs.Answers.{Opens};

use crate::rows::Row;
use crate::tags;
use account::{Account, Purse};
use codec::Cursor;
use invoice::Invoice;
use negotiation::{Negotiation, Round};
use offer::{Deal, Offer};
use settings::Settings;
use shelves::{Accounts, Invoices, Offers};
use terms::{Schedule, Terms};
use totals::Totals;

// What was read, and the cursor past it.
#[derive(Clone, Copy)]
pub(crate) struct Read<T> {
    pub(crate) row: T,
    pub(crate) c: Cursor,
}

fn unlisted(ok: bool) -> Read<u32>
    ensures { result.c ≡ cursor (number journal_malformed) 0 ok 0 }
{
    Read {
        row: edition::FIRST,
        c: Cursor {
            code: refusal::JOURNAL_MALFORMED,
            at: 0,
            ok,
            x: 0,
        },
    }
}

// The edition that the bytes name, and where its fields begin.
pub(crate) fn read_edition(s: &[u8]) -> Read<u32>
    ensures { Opens s.now result.row result.c }
{
    let start = Cursor::start();
    if !wire::begins(s, 0, tags::EDITION, 8) {
        return Read {
            row: edition::UNNAMED,
            c: start,
        };
    }
    let c = codec::next(s, start, tags::EDITION, codec::WHOLE);
    if codec::HALF < c.x {
        return unlisted(c.ok);
    }
    let edition = c.x as u32;
    if !edition::is_listed(edition) {
        return unlisted(c.ok);
    }
    Read { row: edition, c }
}

pub(crate) fn read_settings(s: &[u8], c: Cursor, edition: u32) -> Read<Settings>
    ensures { Takes s.now c (settings edition) result.c result.row }
{
    let window = codec::next(s, c, tags::WINDOW, codec::WHOLE);
    let seats = codec::next(s, window, tags::SEATS, codec::HALF);
    let threshold = codec::next(s, seats, tags::THRESHOLD, codec::HALF);
    let paused = codec::next(s, threshold, tags::PAUSED, codec::FLAG);
    let appointed = codec::next(s, paused, tags::APPOINTED, codec::FLAG);
    let repayer = codec::next(s, appointed, tags::REPAYER, codec::WHOLE);
    let row = Settings {
        window: window.x,
        repayer: repayer.x,
        seats: seats.x as u32,
        threshold: threshold.x as u32,
        edition,
        appointed: appointed.x == 1,
        paused: paused.x == 1,
    };
    Read { row, c: repayer }
}

pub(crate) fn read_totals(s: &[u8], c: Cursor) -> Read<Totals>
    ensures { Takes s.now c totals result.c result.row }
{
    let offers = codec::next(s, c, tags::OFFERS_MADE, codec::HALF);
    let financed = codec::next(s, offers, tags::FINANCED, codec::WHOLE);
    let repaid = codec::next(s, financed, tags::REPAID_TOTAL, codec::WHOLE);
    let fees = codec::next(s, repaid, tags::FEES, codec::WHOLE);
    let row = Totals {
        financed: money::of_bits(financed.x),
        repaid: money::of_bits(repaid.x),
        fees: money::of_bits(fees.x),
        offers: offers.x as u32,
    };
    Read { row, c: fees }
}

fn read_purse(s: &[u8], c: Cursor) -> Read<Purse>
    ensures { Takes s.now c purse result.c result.row }
{
    let balance = codec::next(s, c, tags::BALANCE, codec::WHOLE);
    let allowance = codec::next(s, balance, tags::ALLOWANCE, codec::WHOLE);
    let offered = codec::next(s, allowance, tags::OFFERED, codec::WHOLE);
    let accepted = codec::next(s, offered, tags::ACCEPTED, codec::WHOLE);
    let row = Purse {
        balance: money::of_bits(balance.x),
        allowance: money::of_bits(allowance.x),
        offered: money::of_bits(offered.x),
        accepted: money::of_bits(accepted.x),
    };
    Read { row, c: accepted }
}

pub(crate) fn read_account(s: &[u8], c: Cursor) -> Read<(u64, Account)>
    ensures { Takes s.now c account result.c (result.row.0, result.row.1) }
{
    let id = codec::next(s, c, tags::ID, codec::WHOLE);
    let p = read_purse(s, id);
    let pending = codec::next(s, p.c, tags::OFFERS_PENDING, codec::HALF);
    let repaid = codec::next(s, pending, tags::OFFERS_REPAID, codec::HALF);
    let blacklisted = codec::next(s, repaid, tags::BLACKLISTED, codec::FLAG);
    let row = Account {
        purse: p.row,
        pending: pending.x as u32,
        repaid: repaid.x as u32,
        blacklisted: blacklisted.x == 1,
    };
    Read {
        row: (id.x, row),
        c: blacklisted,
    }
}

pub(crate) fn read_invoice(s: &[u8], c: Cursor) -> Read<(u64, Invoice)>
    ensures { Takes s.now c invoice result.c (result.row.0, result.row.1) }
{
    let id = codec::next(s, c, tags::ID, codec::WHOLE);
    let originator = codec::next(s, id, tags::ORIGINATOR, codec::WHOLE);
    let amount = codec::next(s, originator, tags::AMOUNT, codec::WHOLE);
    let status = codec::next(s, amount, tags::INVOICE_STATUS, codec::HALF);
    let row = Invoice {
        originator: originator.x,
        amount: money::of_bits(amount.x),
        status: status.x as u32,
    };
    Read {
        row: (id.x, row),
        c: status,
    }
}

fn read_terms(s: &[u8], c: Cursor) -> Read<Terms>
    ensures { Takes s.now c terms result.c result.row }
{
    let amount = codec::next(s, c, tags::AMOUNT, codec::WHOLE);
    let rate = codec::next(s, amount, tags::RATE, codec::HALF);
    let duration = codec::next(s, rate, tags::DURATION, codec::WHOLE);
    let row = Terms {
        amount: money::of_bits(amount.x),
        rate: rate.x as u32,
        duration: duration.x,
    };
    Read { row, c: duration }
}

fn read_offer(s: &[u8], c: Cursor) -> Read<Offer>
    ensures { Takes s.now c offer result.c result.row }
{
    let invoice = codec::next(s, c, tags::INVOICE, codec::WHOLE);
    let lender = codec::next(s, invoice, tags::LENDER, codec::WHOLE);
    let t = read_terms(s, lender);
    let expires = codec::next(s, t.c, tags::EXPIRES, codec::WHOLE);
    let status = codec::next(s, expires, tags::STATUS, codec::HALF);
    let funded = codec::next(s, status, tags::FUNDED, codec::WHOLE);
    let repaid = codec::next(s, funded, tags::REPAID, codec::WHOLE);
    let row = Offer {
        terms: t.row,
        invoice: invoice.x,
        lender: lender.x,
        expires: expires.x,
        funded: funded.x,
        repaid: money::of_bits(repaid.x),
        status: status.x as u32,
    };
    Read { row, c: repaid }
}

fn read_round(s: &[u8], c: Cursor) -> Read<Round>
    ensures { Takes s.now c round result.c result.row }
{
    let party = codec::next(s, c, tags::PARTY, codec::HALF);
    let t = read_terms(s, party);
    let time = codec::next(s, t.c, tags::TIME, codec::WHOLE);
    let row = Round::new(time.x, t.row, party.x as u32);
    Read { row, c: time }
}

// The rounds that were read, and how many they are.
fn read_rounds(s: &[u8], c: Cursor, edition: u32) -> Read<([Round; 16], u32)>
    ensures { Reads laid_rounds (rows 0x97 (round_limit edition) round) s.now c (result.row.0, result.row.1) result.c }
{
    let limit = edition::round_limit(edition);
    let k = codec::count(s, c, tags::ROUNDS, limit as u64);
    let len = k.x as usize;
    let mut rows = Negotiation::none().rounds;
    let mut d = k;
    for i in 0..len {
        let g = read_round(s, d);
        rows[i] = g.row;
        d = g.c;
    }
    Read {
        row: (rows, k.x as u32),
        c: d,
    }
}

fn read_negotiation(s: &[u8], c: Cursor, edition: u32) -> Read<Negotiation>
    ensures { Takes s.now c (negotiation edition) result.c result.row }
{
    let deadline = codec::next(s, c, tags::DEADLINE, codec::WHOLE);
    let outcome = codec::next(s, deadline, tags::OUTCOME, codec::HALF);
    let t = read_rounds(s, outcome, edition);
    let (rounds, len) = t.row;
    let row = Negotiation {
        rounds,
        deadline: deadline.x,
        len,
        outcome: outcome.x as u32,
    };
    Read { row, c: t.c }
}

// The terms that a schedule keeps and its kind; zeros where the edition has neither.
fn read_kept(s: &[u8], c: Cursor, edition: u32) -> Read<(i64, u32, u32)>
    ensures { Takes s.now c (kept edition) result.c (result.row.0, (result.row.1, result.row.2)) }
{
    if !edition::keeps_terms(edition) {
        return Read {
            row: (0, 0, terms::FLAT),
            c,
        };
    }
    let amount = codec::next(s, c, tags::KEPT_AMOUNT, codec::WHOLE);
    let rate = codec::next(s, amount, tags::KEPT_RATE, codec::HALF);
    let kind = codec::next(s, rate, tags::KIND, codec::HALF);
    let kept = (money::of_bits(amount.x), rate.x as u32, kind.x as u32);
    Read { row: kept, c: kind }
}

fn read_schedule(s: &[u8], c: Cursor, edition: u32) -> Read<Schedule>
    ensures { Takes s.now c (schedule edition) result.c result.row }
{
    let count = codec::next(s, c, tags::COUNT, codec::HALF);
    let code = codec::next(s, count, tags::CODE, codec::HALF);
    let installment = codec::next(s, code, tags::INSTALLMENT, codec::WHOLE);
    let first = codec::next(s, installment, tags::FIRST_DUE, codec::WHOLE);
    let k = read_kept(s, first, edition);
    let row = Schedule {
        count: count.x as u32,
        code: code.x as u32,
        installment: money::of_bits(installment.x),
        first: first.x,
        amount: k.row.0,
        rate: k.row.1,
        kind: k.row.2,
    };
    Read { row, c: k.c }
}

fn read_deal(s: &[u8], c: Cursor, edition: u32) -> Read<(u64, Deal)>
    ensures { Takes s.now c (deal edition) result.c (result.row.0, result.row.1) }
{
    let id = codec::next(s, c, tags::ID, codec::WHOLE);
    let o = read_offer(s, id);
    let n = read_negotiation(s, o.c, edition);
    let p = read_schedule(s, n.c, edition);
    let row = Deal {
        offer: o.row,
        negotiation: n.row,
        schedule: p.row,
    };
    Read {
        row: (id.x, row),
        c: p.c,
    }
}

// As many rows as were counted, at the first places of their arrays.
fn read_rows<R: Row>(s: &[u8], k: Cursor, none: R) -> Read<([u64; 64], [R; 64])>
    requires { k.x ≤ 64 }
    ensures { FillingTable R.fields none 64 s.now k k.x result.row.0 result.row.1 result.c }
{
    let mut ids = [0u64; 64];
    let mut rows = [none; 64];
    let mut d = k;
    for i in 0..k.x as usize {
        let g = R::read(s, d);
        ids[i] = g.row.0;
        rows[i] = g.row.1;
        d = g.c;
    }
    Read {
        row: (ids, rows),
        c: d,
    }
}

pub(crate) fn read_accounts(s: &[u8], c: Cursor) -> Read<Accounts>
    ensures { Reads stored_accounts (rows 0x70 64 account) s.now c result.row result.c }
{
    let k = codec::count(s, c, tags::ACCOUNTS, 64);
    let g = read_rows(s, k, Account::none());
    let (ids, rows) = g.row;
    let table = Accounts {
        ids,
        rows,
        count: k.x as usize,
    };
    Read { row: table, c: g.c }
}

pub(crate) fn read_invoices(s: &[u8], c: Cursor) -> Read<Invoices>
    ensures { Reads stored_invoices (rows 0x80 64 invoice) s.now c result.row result.c }
{
    let k = codec::count(s, c, tags::INVOICES, 64);
    let g = read_rows(s, k, Invoice::none());
    let (ids, rows) = g.row;
    let table = Invoices {
        ids,
        rows,
        count: k.x as usize,
    };
    Read { row: table, c: g.c }
}

pub(crate) fn read_offers(s: &[u8], c: Cursor, edition: u32) -> Read<Offers>
    ensures { Reads stored_deals (rows 0x90 64 (deal edition)) s.now c result.row result.c }
{
    let k = codec::count(s, c, tags::OFFERS, 64);
    let none = Offers::none();
    let mut ids = none.ids;
    let mut rows = none.rows;
    let mut negotiations = none.negotiations;
    let mut schedules = none.schedules;
    let mut d = k;
    for i in 0..k.x as usize {
        let g = read_deal(s, d, edition);
        ids[i] = g.row.0;
        rows[i] = g.row.1.offer;
        negotiations[i] = g.row.1.negotiation;
        schedules[i] = g.row.1.schedule;
        d = g.c;
    }
    let table = Offers {
        ids,
        rows,
        negotiations,
        schedules,
        count: k.x as usize,
    };
    Read { row: table, c: d }
}
