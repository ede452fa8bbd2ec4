// A book of given rows, from a list of numbers in the order of crate bridge_show. Rows past the tables' room are left out.
#![tactic(auto)]

use account::{Account, Purse};
use book::Book;
use invoice::Invoice;
use money::of_bits;
use negotiation::{Negotiation, Round};
use offer::Offer;
use settings::Settings;
use shelves::{Accounts, Invoices, Offers};
use terms::{Schedule, Terms};
use totals::Totals;

fn settings(s: &[u8; 65536]) -> Settings {
    Settings {
        window: bridge_words::get(s, 0, 2),
        repayer: bridge_words::get(s, 0, 6),
        seats: bridge_words::half(bridge_words::get(s, 0, 3)),
        threshold: bridge_words::half(bridge_words::get(s, 0, 4)),
        edition: bridge_words::half(bridge_words::get(s, 0, 0)),
        appointed: bridge_words::get(s, 0, 5) == 1,
        paused: bridge_words::get(s, 0, 1) == 1,
    }
}

fn totals(s: &[u8; 65536]) -> Totals {
    Totals {
        financed: of_bits(bridge_words::get(s, 0, 8)),
        repaid: of_bits(bridge_words::get(s, 0, 9)),
        fees: of_bits(bridge_words::get(s, 0, 10)),
        offers: bridge_words::half(bridge_words::get(s, 0, 7)),
    }
}

fn account(s: &[u8; 65536], at: usize) -> Account {
    let purse = Purse {
        balance: of_bits(bridge_words::get(s, at, 1)),
        allowance: of_bits(bridge_words::get(s, at, 2)),
        offered: of_bits(bridge_words::get(s, at, 3)),
        accepted: of_bits(bridge_words::get(s, at, 4)),
    };
    Account {
        purse,
        pending: bridge_words::half(bridge_words::get(s, at, 5)),
        repaid: bridge_words::half(bridge_words::get(s, at, 6)),
        blacklisted: bridge_words::get(s, at, 7) == 1,
    }
}

fn count(s: &[u8; 65536], at: usize) -> usize {
    bridge_words::get(s, at, 0) as usize
}

fn accounts(s: &[u8; 65536], at: usize) -> (Accounts, usize) {
    let count = count(s, at);
    let mut ids = [0u64; 64];
    let mut rows = [Account::none(); 64];
    let mut p = bridge_words::on(at, 1);
    for (id, row) in ids.iter_mut().zip(&mut rows).take(count) {
        *id = bridge_words::get(s, p, 0);
        *row = account(s, p);
        p = bridge_words::on(p, 8);
    }
    (Accounts { ids, rows, count }, p)
}

fn invoice(s: &[u8; 65536], at: usize) -> Invoice {
    Invoice {
        originator: bridge_words::get(s, at, 1),
        amount: of_bits(bridge_words::get(s, at, 2)),
        status: bridge_words::half(bridge_words::get(s, at, 3)),
    }
}

fn invoices(s: &[u8; 65536], at: usize) -> (Invoices, usize) {
    let count = count(s, at);
    let mut ids = [0u64; 64];
    let mut rows = [Invoice::none(); 64];
    let mut p = bridge_words::on(at, 1);
    for (id, row) in ids.iter_mut().zip(&mut rows).take(count) {
        *id = bridge_words::get(s, p, 0);
        *row = invoice(s, p);
        p = bridge_words::on(p, 4);
    }
    (Invoices { ids, rows, count }, p)
}

fn offer(s: &[u8; 65536], at: usize) -> Offer {
    let terms = Terms {
        amount: of_bits(bridge_words::get(s, at, 3)),
        rate: bridge_words::half(bridge_words::get(s, at, 4)),
        duration: bridge_words::get(s, at, 5),
    };
    Offer {
        terms,
        invoice: bridge_words::get(s, at, 1),
        lender: bridge_words::get(s, at, 2),
        expires: bridge_words::get(s, at, 6),
        funded: bridge_words::get(s, at, 8),
        repaid: of_bits(bridge_words::get(s, at, 9)),
        status: bridge_words::half(bridge_words::get(s, at, 7)),
    }
}

fn schedule(s: &[u8; 65536], at: usize) -> Schedule {
    Schedule {
        count: bridge_words::half(bridge_words::get(s, at, 12)),
        code: bridge_words::half(bridge_words::get(s, at, 13)),
        installment: of_bits(bridge_words::get(s, at, 14)),
        first: bridge_words::get(s, at, 15),
        amount: of_bits(bridge_words::get(s, at, 16)),
        rate: bridge_words::half(bridge_words::get(s, at, 17)),
        kind: bridge_words::half(bridge_words::get(s, at, 18)),
    }
}

fn round(s: &[u8; 65536], at: usize) -> Round {
    Round {
        amount: of_bits(bridge_words::get(s, at, 1)),
        duration: bridge_words::get(s, at, 3),
        time: bridge_words::get(s, at, 4),
        rate: bridge_words::half(bridge_words::get(s, at, 2)),
        party: bridge_words::half(bridge_words::get(s, at, 0)),
    }
}

// The negotiation of the offer at a place, and the place past that offer.
fn negotiation(s: &[u8; 65536], at: usize) -> (Negotiation, usize) {
    let len = bridge_words::half(bridge_words::get(s, at, 19));
    let mut rounds = Negotiation::none().rounds;
    let mut p = bridge_words::on(at, 20);
    for row in rounds.iter_mut().take(len as usize) {
        *row = round(s, p);
        p = bridge_words::on(p, 5);
    }
    let row = Negotiation {
        rounds,
        deadline: bridge_words::get(s, at, 11),
        len,
        outcome: bridge_words::half(bridge_words::get(s, at, 10)),
    };
    (row, p)
}

fn offers(s: &[u8; 65536], at: usize) -> Offers {
    let count = count(s, at);
    let none = Offers::none();
    let mut ids = none.ids;
    let mut rows = none.rows;
    let mut negotiations = none.negotiations;
    let mut schedules = none.schedules;
    let mut p = bridge_words::on(at, 1);
    for i in 0..count.min(64) {
        ids[i] = bridge_words::get(s, p, 0);
        rows[i] = offer(s, p);
        schedules[i] = schedule(s, p);
        (negotiations[i], p) = negotiation(s, p);
    }
    Offers {
        ids,
        rows,
        negotiations,
        schedules,
        count,
    }
}

// The book that words give, row by row.
pub fn book(s: &[u8; 65536]) -> Book {
    let (accounts, past) = accounts(s, 88);
    let (invoices, past) = invoices(s, past);
    Book {
        accounts,
        invoices,
        offers: offers(s, past),
        totals: totals(s),
        settings: settings(s),
    }
}
