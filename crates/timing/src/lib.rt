// What the benchmark runs: one call repeated on the book of a journal. What comes back only keeps the calls from being left out.
#![tactic(auto)]

use refusal::Refusal;

// Replays a journal again and again.
#[unsafe(no_mangle)]
pub extern "C" fn timing_replay(journal: &[u8]) -> u64 {
    let o = replay::replay(journal);
    o.count as u64
}

// Asks for a lender's figures again and again.
#[unsafe(no_mangle)]
pub extern "C" fn timing_lender(journal: &[u8], account: u64, times: u64) -> u64 {
    let o = replay::replay(journal);
    let book = o.book;
    let mut mixed: u64 = 0;
    for i in 0..times {
        mixed ^= match query::get_lender_stats(book, account ^ (i & 1)) {
            Ok(x) => x.offered,
            Err(_) => 1,
        };
    }
    mixed
}

// Asks for an offer again and again.
#[unsafe(no_mangle)]
pub extern "C" fn timing_offer(journal: &[u8], id: u64, times: u64) -> u64 {
    let o = replay::replay(journal);
    let book = o.book;
    let mut mixed: u64 = 0;
    for i in 0..times {
        mixed ^= match query::get_offer(book, id ^ (i & 1)) {
            Ok(x) => x.amount,
            Err(Refusal::NotFound) => 4,
            Err(_) => 1,
        };
    }
    mixed
}

// Tests a book again and again.
#[unsafe(no_mangle)]
pub extern "C" fn timing_sound(journal: &[u8], times: u64) -> u64 {
    let o = replay::replay(journal);
    // Two copies in turn: of one book the test would be made once, before the loop.
    let books = [o.book, o.book];
    let mut mixed: u64 = 0;
    for i in 0..times {
        if books[(i & 1) as usize].sound() {
            mixed = mixed ^ i;
        }
    }
    mixed
}

// Answers the same questions again and again.
#[unsafe(no_mangle)]
pub extern "C" fn timing_answers(
    journal: &[u8],
    questions: &[u64],
    out: &mut [u64],
    times: u64,
) -> u64 {
    let o = replay::replay(journal);
    let book = o.book;
    let mut mixed: u64 = 0;
    for i in 0..times {
        mixed ^= match query::answers(book, questions, &mut *out) {
            Ok(n) => i ^ (n as u64),
            Err(Refusal::BufferShort) => 14,
            Err(_) => 1,
        };
    }
    mixed
}

// Reads a snapshot again and again.
#[unsafe(no_mangle)]
pub extern "C" fn timing_read(bytes: &[u8], times: u64) -> u64 {
    let mut mixed: u64 = 0;
    for i in 0..times {
        let l = snapshot::read(bytes);
        let b = l.book;
        let offers = b.offers;
        mixed = mixed ^ i ^ l.number ^ (offers.count as u64);
    }
    mixed
}

// Writes the book of a snapshot again and again.
#[unsafe(no_mangle)]
pub extern "C" fn timing_write(bytes: &[u8], out: &mut [u8], times: u64) -> u64 {
    let l = snapshot::read(bytes);
    let book = l.book;
    let mut mixed: u64 = 0;
    for i in 0..times {
        let w = snapshot::write(book, &mut *out);
        mixed = mixed ^ i ^ w.number ^ (w.size as u64);
    }
    mixed
}
