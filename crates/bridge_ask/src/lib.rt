// The queries by their numbers in oracle/side/src/query.rs. An answer is its number, how many offers (of a list) or numbers there
// are, how many numbers follow, and those. Of a list the whole lent buffer follows.
#![tactic(auto)]

use book::Book;
use installments::Due;
use lists::{OfferNumbers, Wanted};
use negotiation::Negotiation;
use query::{LenderNumbers, ScheduleNumbers, TotalsNumbers};
use refusal::Refusal;

fn head(out: &mut [u8; 65536], number: u64, written: u64, follow: u64) -> usize {
    let mut p = bridge_words::put(out, 8, number);
    p = bridge_words::put(out, p, written);
    bridge_words::put(out, p, follow)
}

fn refused(out: &mut [u8; 65536], r: Refusal) -> usize {
    head(out, r.number(), 0, 0)
}

// Numbers after their head.
fn numbers(out: &mut [u8; 65536], values: &[u64]) -> usize {
    let n = values.len() as u64;
    let mut p = head(out, 0, n, n);
    for &v in values {
        p = bridge_words::put(out, p, v);
    }
    p
}

// ── Lists ──

// An unlisted status stays unlisted.
fn status(a: u64) -> u32 {
    if a < 6 {
        return bridge_words::half(a);
    }
    6
}

// The list query of a code and its arguments.
pub fn wanted(query: u64, a: u64, b: u64) -> Wanted {
    if query == 3 {
        return Wanted::Status(status(a));
    }
    Wanted::asked(query, a, b).unwrap_or(Wanted::Page(a, b))
}

fn listed(out: &mut [u8; 65536], l: Result<usize, Refusal>, room: u64) -> usize {
    match l {
        Ok(n) => head(out, 0, n as u64, room),
        Err(r) => head(out, r.number(), 0, room),
    }
}

// The buffer has `room` numbers, each of which is `fill` before the query.
pub fn list(out: &mut [u8; 65536], book: Book, w: Wanted, room: u64, fill: u64) -> usize {
    if 704 < room {
        return refused(out, Refusal::InvalidInput);
    }
    let n = room as usize;
    let mut numbers: [u64; 704] = [fill; 704];
    let l = query::list(book, w, &mut numbers[..n]);
    let mut p = listed(out, l, room);
    for &v in &numbers[..n] {
        p = bridge_words::put(out, p, v);
    }
    p
}

// ── Single reads ──

fn number(out: &mut [u8; 65536], a: Result<u64, Refusal>) -> usize {
    match a {
        Ok(n) => numbers(out, &[n]),
        Err(r) => refused(out, r),
    }
}

fn two(out: &mut [u8; 65536], a: Result<u64, Refusal>, b: Result<u64, Refusal>) -> usize {
    match (a, b) {
        (Ok(x), Ok(y)) => numbers(out, &[x, y]),
        (Err(r), _) | (_, Err(r)) => refused(out, r),
    }
}

fn due(out: &mut [u8; 65536], a: Result<Due, Refusal>) -> usize {
    match a {
        Ok(d) => numbers(out, &[d.number, d.owed]),
        Err(r) => refused(out, r),
    }
}

fn offer(out: &mut [u8; 65536], a: Result<OfferNumbers, Refusal>) -> usize {
    match a {
        Ok(n) => numbers(out, &n.in_order()),
        Err(r) => refused(out, r),
    }
}

fn schedule(out: &mut [u8; 65536], a: Result<Option<ScheduleNumbers>, Refusal>) -> usize {
    match a {
        Ok(Some(n)) => numbers(out, &[n.count, n.code, n.installment, n.first, n.kind]),
        Ok(None) => head(out, 0, 0, 0),
        Err(r) => refused(out, r),
    }
}

fn lender(out: &mut [u8; 65536], a: Result<LenderNumbers, Refusal>) -> usize {
    match a {
        Ok(n) => numbers(out, &[n.offered, n.accepted, n.pending, n.repaid]),
        Err(r) => refused(out, r),
    }
}

fn totals(out: &mut [u8; 65536], a: Result<TotalsNumbers, Refusal>) -> usize {
    match a {
        Ok(n) => numbers(out, &[n.offers, n.financed, n.repaid, n.fees]),
        Err(r) => refused(out, r),
    }
}

// The deadline, and five numbers for each round; a deadline of 0 and no round where it is refused.
fn negotiation(out: &mut [u8; 65536], a: Result<Negotiation, Refusal>) -> usize {
    let (answer, g) = match a {
        Ok(g) => (0, g),
        Err(r) => (r.number(), Negotiation::none()),
    };
    let n = 1 + 5 * (g.len as usize).min(16);
    let mut p = head(out, answer, n as u64, n as u64);
    p = bridge_words::put(out, p, g.deadline);
    bridge_words::rounds(out, p, g.rounds, g.len)
}

fn of_offer(out: &mut [u8; 65536], book: Book, query: u64, id: u64, now: u64) -> usize {
    match query {
        7 => offer(out, query::get_offer(book, id)),
        8 => schedule(out, query::get_schedule(book, id)),
        9 => negotiation(out, query::get_negotiation(book, id)),
        10 => number(out, query::get_negotiation_status(book, now, id)),
        _ => due(out, query::get_installment_due(book, now, id)),
    }
}

fn of_book(out: &mut [u8; 65536], book: Book, query: u64, id: u64) -> usize {
    match query {
        12 => lender(out, query::get_lender_stats(book, id)),
        13 => number(out, query::get_lender_active_total(book, id)),
        14 => number(out, query::get_offers_count(book)),
        15 => totals(out, query::get_stats(book)),
        16 => number(out, query::get_negotiation_window(book)),
        17 => two(out, query::get_signers(book), query::get_threshold(book)),
        _ => number(out, query::contract_is_paused(book)),
    }
}

// The answer to a question, written as words.
pub fn ask(out: &mut [u8; 65536], book: Book, query: u64, a: u64, b: u64) -> usize {
    if query < 12 {
        return of_offer(out, book, query, a, b);
    }
    of_book(out, book, query, a)
}
