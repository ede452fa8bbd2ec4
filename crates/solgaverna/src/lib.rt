// The library for C and Rust: the bytes of a journal go in, of a snapshot before it or not, and its listing, its offers, its figures, answers
// to questions or a snapshot come out in lent buffers.
#![tactic(auto)]

mod questions;
mod snapshots;

ghost use Rattle.std.specs.Prelude.{◌≡◌, true, IfOk, MatchResult};
ghost use Rattle.book.specs.Stored.{book_test, Shelved};
ghost use Rattle.refusal.specs.Refusal.{journal_malformed};
ghost use Rattle.lists.specs.Wanted.{wanted_of};
ghost use Rattle.query.specs.Reads.{asked, lender_read, totals_read};
ghost use Rattle.replay.specs.Text.{listing_of, listing_says};
ghost use Rattle.sheet.specs.Shown.{listed_in, shown_in};
ghost use Rattle.solgaverna.specs.Answers.{minus, coded, code, left, of_book, offers_for, four_over, written, line_of, fault_of};
ghost use Rattle.text.specs.Answers.{answered, left_for};
ghost use Rattle.text.specs.Text.{text_of};
ghost use Rattle.text.specs.Journal.{journal_of};

use book::Book;
use lists::Wanted;
use refusal::Refusal;
use replay::Listed;
use text::Answer;

// −n in two's complement, for the number of a refusal.
fn refused(n: u64) -> u64
    ensures { result ≡ minus n }
{
    if n == 0 {
        return 0;
    }
    18446744073709551615 - (n - 1)
}

// A count, or the number of a refusal.
fn code(r: Result<usize, Refusal>) -> u64
    ensures { result ≡ code r }
{
    match r {
        Ok(n) => n as u64,
        Err(e) => refused(e.number()),
    }
}

// The book that a journal leaves; 13 where the journal is malformed.
fn book_of(journal: &[u8]) -> Result<Book, Refusal>
    ensures left { MatchResult result (λ b. ((left journal.now).number ≡ 0) × (b ≡ (left journal.now).book)) (λ e. ((left journal.now).number ≡ 0 → ⊥) × (e ≡ journal_malformed)) }
    ensures shelved { IfOk result (λ b. Shelved b) }
    ensures tested { IfOk result (λ b. book_test b ≡ true) }
{
    let left = replay::replay(journal);
    if left.number == 0 {
        Ok(left.book)
    } else {
        Err(Refusal::JournalMalformed)
    }
}

fn listed(r: Listed) -> u64
    ensures { result ≡ coded (listing_says r).0 (listing_says r).1 }
{
    match r {
        Listed::Done(n) => { n as u64 }
        Listed::Short => { refused(refusal::BUFFER_SHORT) }
        Listed::Unsound => { refused(refusal::BOOK_UNSOUND) }
    }
}

// The listing of a journal: how many bytes it is.
#[unsafe(no_mangle)]
pub extern "C" fn solgaverna_listing(journal: &[u8], out: &mut [u8]) -> u64
    ensures { (result ≡ coded (listed_in (listing_of journal.now) out.old).0 (listed_in (listing_of journal.now) out.old).1) × (out.new ≡ shown_in (listing_of journal.now) out.old) }
{
    let r = replay::listing(journal, out);
    listed(r)
}

fn sized(r: Answer) -> u64
    ensures { result ≡ coded (answered r).0 (answered r).1 }
{
    match r {
        Answer::Done(n) => { n as u64 }
        Answer::Malformed(_) => { refused(refusal::JOURNAL_MALFORMED) }
        Answer::Short => { refused(refusal::BUFFER_SHORT) }
    }
}

// The journal of a text: how many bytes it is.
#[unsafe(no_mangle)]
pub extern "C" fn solgaverna_journal(lines: &[u8], out: &mut [u8]) -> u64
    ensures { (result ≡ written (journal_of lines.now) out.old) × (out.new ≡ left_for (journal_of lines.now) out.old) }
{
    let told = text::to_journal(lines, out);
    sized(told)
}

// The text of a journal: how many bytes it is.
#[unsafe(no_mangle)]
pub extern "C" fn solgaverna_text(journal: &[u8], out: &mut [u8]) -> u64
    ensures { (result ≡ written (text_of journal.now) out.old) × (out.new ≡ left_for (text_of journal.now) out.old) }
{
    let told = text::to_text(journal, out);
    sized(told)
}

fn line(r: Answer) -> u64
    ensures { result ≡ line_of (answered r) }
{
    match r {
        Answer::Done(_) => { 0 }
        Answer::Malformed(k) => { k as u64 }
        Answer::Short => { 0 }
    }
}

// The number of the first line of a text that is no command, 0 where there is none.
#[unsafe(no_mangle)]
pub extern "C" fn solgaverna_faulty_line(lines: &[u8]) -> u64
    ensures { result ≡ fault_of (journal_of lines.now) }
{
    let mut out: [u8; 1] = [0; 1];
    let r = text::to_journal(lines, &mut out);
    line(r)
}

fn offers(journal: &[u8], kind: u64, a: u64, b: u64, out: &mut [u64]) -> Result<usize, Refusal>
    ensures { (code result, out.new) ≡ of_book journal.now out.old (offers_for (wanted_of kind a b) out.old) }
{
    let book = book_of(journal)?;
    let Some(w) = Wanted::asked(kind, a, b) else {
        return Err(Refusal::InvalidInput);
    };
    query::list(book, w, out)
}

// Offers of a journal's book, ten numbers each: how many they are.
#[unsafe(no_mangle)]
pub extern "C" fn solgaverna_offers(
    journal: &[u8],
    kind: u64,
    a: u64,
    b: u64,
    out: &mut [u64],
) -> u64
    ensures { (result, out.new) ≡ of_book journal.now out.old (offers_for (wanted_of kind a b) out.old) }
{
    code(offers(journal, kind, a, b, out))
}

// Four numbers over the start of a buffer.
#[tactic(auto, unfolding(crate::specs::Answers::four_over, refusal::specs::Choice::pick))]
fn put_four(out: &mut [u64], values: [u64; 4]) -> Result<usize, Refusal>
    ensures { (code result, out.new) ≡ four_over (0, values) out.old }
{
    if out.len() < 4 {
        return Err(Refusal::BufferShort);
    }
    out[..4].copy_from_slice(&values);
    Ok(4)
}

fn lender_over(journal: &[u8], lender: u64, out: &mut [u64]) -> Result<usize, Refusal>
    ensures { (code result, out.new) ≡ of_book journal.now out.old (λ b. four_over (asked b (lender_read lender)) out.old) }
{
    let book = book_of(journal)?;
    let x = query::get_lender_stats(book, lender)?;
    put_four(out, [x.offered, x.accepted, x.pending, x.repaid])
}

fn totals_over(journal: &[u8], out: &mut [u64]) -> Result<usize, Refusal>
    ensures { (code result, out.new) ≡ of_book journal.now out.old (λ b. four_over (asked b totals_read) out.old) }
{
    let book = book_of(journal)?;
    let x = query::get_stats(book)?;
    put_four(out, [x.offers, x.financed, x.repaid, x.fees])
}

// A lender's offered and accepted totals, offers pending and offers repaid: four numbers.
#[unsafe(no_mangle)]
pub extern "C" fn solgaverna_lender(journal: &[u8], lender: u64, out: &mut [u64]) -> u64
    ensures { (result, out.new) ≡ of_book journal.now out.old (λ b. four_over (asked b (lender_read lender)) out.old) }
{
    code(lender_over(journal, lender, out))
}

// The book's totals: offers, financed, repaid, fees.
#[unsafe(no_mangle)]
pub extern "C" fn solgaverna_totals(journal: &[u8], out: &mut [u64]) -> u64
    ensures { (result, out.new) ≡ of_book journal.now out.old (λ b. four_over (asked b totals_read) out.old) }
{
    code(totals_over(journal, out))
}
