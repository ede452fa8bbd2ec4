// The whole book as a list of numbers: oracle/side/src/flat.rs gives their order.
#![tactic(auto)]

use account::Account;
use book::Book;
use invoice::Invoice;
use negotiation::Negotiation;
use offer::Offer;
use settings::Settings;
use shelves::{Accounts, Invoices, Offers};
use terms::Schedule;
use totals::Totals;

fn settings(out: &mut [u8; 65536], at: usize, s: Settings) -> usize {
    let mut p = bridge_words::put(out, at, s.edition as u64);
    p = bridge_words::put(out, p, u64::from(s.paused));
    p = bridge_words::put(out, p, s.window);
    p = bridge_words::put(out, p, s.seats as u64);
    p = bridge_words::put(out, p, s.threshold as u64);
    p = bridge_words::put(out, p, u64::from(s.appointed));
    bridge_words::put(out, p, s.repayer)
}

fn totals(out: &mut [u8; 65536], at: usize, t: Totals) -> usize {
    let mut p = bridge_words::put(out, at, t.offers as u64);
    p = bridge_words::put(out, p, money::bits(t.financed));
    p = bridge_words::put(out, p, money::bits(t.repaid));
    bridge_words::put(out, p, money::bits(t.fees))
}

fn account(out: &mut [u8; 65536], at: usize, id: u64, a: &Account) -> usize {
    let mut p = bridge_words::put(out, at, id);
    p = bridge_words::put(out, p, money::bits(a.purse.balance));
    p = bridge_words::put(out, p, money::bits(a.purse.allowance));
    p = bridge_words::put(out, p, money::bits(a.purse.offered));
    p = bridge_words::put(out, p, money::bits(a.purse.accepted));
    p = bridge_words::put(out, p, a.pending as u64);
    p = bridge_words::put(out, p, a.repaid as u64);
    bridge_words::put(out, p, u64::from(a.blacklisted))
}

fn accounts(out: &mut [u8; 65536], at: usize, t: Accounts) -> usize {
    let mut p = bridge_words::put(out, at, t.count as u64);
    for (id, row) in t.ids.iter().zip(&t.rows).take(t.count) {
        p = account(out, p, *id, row);
    }
    p
}

fn invoice(out: &mut [u8; 65536], at: usize, id: u64, i: &Invoice) -> usize {
    let mut p = bridge_words::put(out, at, id);
    p = bridge_words::put(out, p, i.originator);
    p = bridge_words::put(out, p, money::bits(i.amount));
    bridge_words::put(out, p, i.status as u64)
}

fn invoices(out: &mut [u8; 65536], at: usize, t: Invoices) -> usize {
    let mut p = bridge_words::put(out, at, t.count as u64);
    for (id, row) in t.ids.iter().zip(&t.rows).take(t.count) {
        p = invoice(out, p, *id, row);
    }
    p
}

fn offer(out: &mut [u8; 65536], at: usize, id: u64, o: Offer) -> usize {
    let mut p = bridge_words::put(out, at, id);
    p = bridge_words::put(out, p, o.invoice);
    p = bridge_words::put(out, p, o.lender);
    p = bridge_words::put(out, p, money::bits(o.terms.amount));
    p = bridge_words::put(out, p, o.terms.rate as u64);
    p = bridge_words::put(out, p, o.terms.duration);
    p = bridge_words::put(out, p, o.expires);
    p = bridge_words::put(out, p, o.status as u64);
    p = bridge_words::put(out, p, o.funded);
    bridge_words::put(out, p, money::bits(o.repaid))
}

fn schedule(out: &mut [u8; 65536], at: usize, s: Schedule) -> usize {
    let mut p = bridge_words::put(out, at, s.count as u64);
    p = bridge_words::put(out, p, s.code as u64);
    p = bridge_words::put(out, p, money::bits(s.installment));
    p = bridge_words::put(out, p, s.first);
    p = bridge_words::put(out, p, money::bits(s.amount));
    p = bridge_words::put(out, p, s.rate as u64);
    bridge_words::put(out, p, s.kind as u64)
}

// An offer's negotiation and schedule.
fn apart(out: &mut [u8; 65536], at: usize, g: Negotiation, s: Schedule) -> usize {
    let mut p = bridge_words::put(out, at, g.outcome as u64);
    p = bridge_words::put(out, p, g.deadline);
    p = schedule(out, p, s);
    p = bridge_words::put(out, p, g.len as u64);
    bridge_words::rounds(out, p, g.rounds, g.len)
}

fn offers(out: &mut [u8; 65536], at: usize, t: Offers) -> usize {
    let mut p = bridge_words::put(out, at, t.count as u64);
    for i in 0..t.count.min(64) {
        p = offer(out, p, t.ids[i], t.rows[i]);
        p = apart(out, p, t.negotiations[i], t.schedules[i]);
    }
    p
}

// All of a book, written as words.
pub fn book(out: &mut [u8; 65536], at: usize, b: Book) -> usize {
    let mut p = settings(out, at, b.settings);
    p = totals(out, p, b.totals);
    p = accounts(out, p, b.accounts);
    p = invoices(out, p, b.invoices);
    offers(out, p, b.offers)
}
