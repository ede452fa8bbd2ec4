// Replay of a journal, from a given book or from a fresh one of its edition, and its listing.
#![tactic(auto)]

ghost use Rattle.std.specs.Prelude.{◌≡◌, false, ◌≤◌, length};
ghost use Rattle.sheet.specs.Sheet.{Wrote, pen_at};
ghost use Rattle.book.specs.Stored.{model_of, stored, Shelved};
ghost use Rattle.rules.specs.Model.{fresh_model};
ghost use Rattle.replay.specs.Replay.{replay_from, replay_on, edition_of, replay_of, outcome_of, ending, replayed_from};
ghost use Rattle.replay.specs.Text.{book_text, text_of, listing_on, listing_of, listing_says, listed_from, shown_from};
ghost use Rattle.replay.specs.Bounded.{Bounded};
ghost use Rattle.sheet.specs.Shown.{listed_in, shown_in};

use book::Book;
use journal::Decoded;
use sheet::Pen;

// How many bytes were written, or that the buffer is too short, or that the given book is not sound.
#[derive(Clone, Copy)]
pub enum Listed {
    Done(usize),
    Short,
    Unsound,
}

// How a replay ended: the book, how many records were answered, 0, 13 or 15, and the offset.
#[derive(Clone, Copy)]
pub struct Outcome {
    pub book: Book,
    pub count: usize,
    pub number: u64,
    pub at: usize,
}

// The accounts and the totals.
fn put_book(out: &mut [u8], pen: Pen, ink: bool, book: Book) -> Pen
    ensures { Wrote ink (book_text (model_of book)) out.old pen out.new result }
{
    let accounts = book.accounts;
    let ids = accounts.ids;
    let rows = accounts.rows;
    let p = lines::put_accounts(out, pen, ink, ids, rows, accounts.count);
    let totals = book.totals;
    lines::put_totals(out, p, ink, totals)
}

// What a walk over a journal leaves: the replay's outcome, and the pen behind its text.
#[derive(Clone, Copy)]
struct Told {
    outcome: Outcome,
    pen: Pen,
}

// The end of every text: the book.
fn finish(
    out: &mut [u8],
    pen: Pen,
    ink: bool,
    book: Book,
    count: usize,
    number: u64,
    at: usize,
) -> Told
    ensures outcome { result.outcome ≡ ending book count number at }
    ensures wrote { Wrote ink (book_text (model_of book)) out.old pen out.new result.pen }
{
    let p = put_book(out, pen, ink, book);
    Told {
        outcome: Outcome {
            book,
            count,
            number,
            at,
        },
        pen: p,
    }
}

// The records from a place on. Each step keeps the book's tables as they must be, so that soundness is never tested.
// The step is the length of the record that was read, so that a `for` has nothing to go over.
fn records(s: &[u8], out: &mut [u8], ink: bool, start: Pen, book: Book, first: usize) -> Told
    requires { (first ≤ length s.now) × Shelved book }
    ensures outcome { result.outcome ≡ outcome_of 0 (replay_from s.now first (model_of book)) }
    ensures wrote { Wrote ink (text_of 0 (replay_from s.now first (model_of book))) out.old start out.new result.pen }
{
    let mut book = book;
    let mut pen = start;
    let mut at = first;
    let mut k: usize = 0;
    loop {
        match reader::read(book.settings.edition, s, at) {
            Decoded::Command(c, next) => {
                let answer = book::number_of(book.obey(c));
                k += 1;
                pen = lines::put_answer(out, pen, ink, k as u64, answer);
                at = next;
            }
            Decoded::Malformed(tag) => {
                let p = lines::put_mark(out, pen, ink, (k + 1) as u64, tag as u64);
                return finish(out, p, ink, book, k, refusal::JOURNAL_MALFORMED, tag);
            }
            Decoded::End => {
                return finish(out, pen, ink, book, k, 0, 0);
            }
        }
    }
}

// One walk from any book: it replays and writes as it goes. Without ink it only measures.
fn walk(s: &[u8], out: &mut [u8], ink: bool, book: Book) -> Told
    requires { Shelved book }
    ensures outcome { result.outcome ≡ outcome_of 0 (replay_on (model_of book) s.now) }
    ensures wrote { Wrote ink (listing_on (model_of book) s.now) out.old (pen_at 0 false) out.new result.pen }
{
    let pen = Pen {
        at: 0,
        short: false,
    };
    if let Ok(header) = journal::header(s) {
        if header.edition == book.settings.edition {
            let past = lines::put_edition(out, pen, ink, header.edition as u64);
            return records(s, out, ink, past, book, header.first);
        }
    }
    let p = lines::put_mark(out, pen, ink, 0, 0);
    finish(out, p, ink, book, 0, refusal::JOURNAL_MALFORMED, 0)
}

// A fresh book of the edition that the journal's header names, of the first where the header is bad.
fn fresh_for(s: &[u8]) -> Book
    ensures { result ≡ stored (fresh_model (edition_of s.now)) }
{
    let Ok(header) = journal::header(s) else {
        return Book::of_edition(edition::FIRST);
    };
    Book::of_edition(header.edition)
}

// A fresh book of the journal's edition and then its commands, up to its end or to a malformed record.
pub fn replay(s: &[u8]) -> Outcome
    ensures { result ≡ outcome_of 0 (replay_of s.now) }
{
    let mut none: [u8; 1] = [0; 1];
    let book = fresh_for(s);
    let w = walk(s, &mut none, false, book);
    w.outcome
}

// The given book and then the commands of a journal of its edition: 13 for another edition's, 15 for a book that is not sound.
pub fn replay_from(book: Book, s: &[u8]) -> Outcome
    ensures { result ≡ replayed_from book s.now }
{
    if !book.sound() {
        return Outcome {
            book,
            count: 0,
            number: refusal::BOOK_UNSOUND,
            at: 0,
        };
    }
    let mut none: [u8; 1] = [0; 1];
    let w = walk(s, &mut none, false, book);
    w.outcome
}

// A listing has at most so many bytes more than its journal.
const ROOM: usize = 7358;

// Writes the listing where it fits, else leaves the buffer as it is. It is measured first only where it might be short.
fn list(book: Book, s: &[u8], out: &mut [u8]) -> Listed
    requires { Shelved book × Bounded (model_of book) }
    ensures { (listing_says result ≡ listed_in (listing_on (model_of book) s.now) out.old) × (out.new ≡ shown_in (listing_on (model_of book) s.now) out.old) }
{
    if out.len() >= ROOM && out.len() - ROOM >= s.len() {
        let all = walk(s, out, true, book);
        let pen = all.pen;
        return Listed::Done(pen.at);
    }
    let dry = walk(s, out, false, book);
    let p = dry.pen;
    if p.short {
        return Listed::Short;
    }
    let wet = walk(s, out, true, book);
    let q = wet.pen;
    Listed::Done(q.at)
}

// Writes the listing from a fresh book of the journal's edition where it fits, else leaves the buffer as it is.
pub fn listing(s: &[u8], out: &mut [u8]) -> Listed
    ensures { (listing_says result ≡ listed_in (listing_of s.now) out.old) × (out.new ≡ shown_in (listing_of s.now) out.old) }
{
    let book = fresh_for(s);
    list(book, s, out)
}

// The same from the given book; one that is not sound leaves the buffer as it is.
pub fn listing_from(book: Book, s: &[u8], out: &mut [u8]) -> Listed
    ensures { (listing_says result ≡ listed_from book s.now out.old) × (out.new ≡ shown_from book s.now out.old) }
{
    if !book.sound() {
        return Listed::Unsound;
    }
    list(book, s, out)
}
