// Snapshots: the book that a journal leaves as bytes, and a journal's answers from the book of a snapshot.
ghost use Rattle.std.specs.Prelude.{◌≡◌, true};
ghost use Rattle.book.specs.Stored.{model_of, book_test, Shelved};
ghost use Rattle.replay.specs.Replay.{replay_on, outcome_of};
ghost use Rattle.snapshot.specs.Snapshot.{reading};
ghost use Rattle.solgaverna.specs.Answers.{of_book, text_for};
ghost use Rattle.solgaverna.specs.Snapshots.{snapshot_for, listing_for, of_snapshot, after, wrong_field};

use crate::{listed, refused, sized};
use book::Book;
use replay::Outcome;

// The snapshot of a sound book: how many bytes it is.
fn put_snapshot(book: Book, out: &mut [u8]) -> u64
    requires { book_test book ≡ true }
    ensures { (result, out.new) ≡ snapshot_for out.old book }
{
    let w = snapshot::write(book, out);
    let short = w.number;
    if !(short == 0) {
        return refused(short);
    }
    w.size as u64
}

// A sound book and then the commands of a journal of its edition, which leave a sound book.
fn goes_on(book: Book, journal: &[u8]) -> Outcome
    requires { book_test book ≡ true }
    ensures replayed { result ≡ outcome_of 0 (replay_on (model_of book) journal.now) }
    ensures tested { book_test result.book ≡ true }
    ensures shelved { Shelved result.book }
{
    replay::replay_from(book, journal)
}

// The snapshot of the book that a journal leaves: how many bytes it is.
#[unsafe(no_mangle)]
pub extern "C" fn solgaverna_snapshot(journal: &[u8], out: &mut [u8]) -> u64
    ensures { (result, out.new) ≡ of_book journal.now out.old (snapshot_for out.old) }
{
    let replayed = replay::replay(journal);
    let number = replayed.number;
    if !(number == 0) {
        return refused(refusal::JOURNAL_MALFORMED);
    }
    let left = replayed.book;
    put_snapshot(left, out)
}

// The snapshot of the book that a journal leaves of a snapshot's: how many bytes it is.
#[unsafe(no_mangle)]
pub extern "C" fn solgaverna_snapshot_from(from: &[u8], journal: &[u8], out: &mut [u8]) -> u64
    ensures { (result, out.new) ≡ of_snapshot from.now out.old (after journal.now out.old (snapshot_for out.old)) }
{
    let loaded = snapshot::read(from);
    let wrong = loaded.number;
    if !(wrong == 0) {
        return refused(wrong);
    }
    let start = loaded.book;
    let gone = goes_on(start, journal);
    let stopped = gone.number;
    if !(stopped == 0) {
        return refused(refusal::JOURNAL_MALFORMED);
    }
    let last = gone.book;
    put_snapshot(last, out)
}

// The listing of a journal on a snapshot's book: how many bytes it is.
#[unsafe(no_mangle)]
pub extern "C" fn solgaverna_listing_from(from: &[u8], journal: &[u8], out: &mut [u8]) -> u64
    ensures { (result, out.new) ≡ of_snapshot from.now out.old (listing_for journal.now out.old) }
{
    let loaded = snapshot::read(from);
    let unread = loaded.number;
    if !(unread == 0) {
        return refused(unread);
    }
    let start = loaded.book;
    let r = replay::listing_from(start, journal, out);
    listed(r)
}

// The answers to questions about the book that a journal leaves of a snapshot's: how many bytes they are.
#[unsafe(no_mangle)]
pub extern "C" fn solgaverna_ask_from(
    from: &[u8],
    journal: &[u8],
    questions: &[u8],
    out: &mut [u8],
) -> u64
    ensures { (result, out.new) ≡ of_snapshot from.now out.old (after journal.now out.old (text_for questions.now out.old)) }
{
    let loaded = snapshot::read(from);
    let fault = loaded.number;
    if !(fault == 0) {
        return refused(fault);
    }
    let held = loaded.book;
    let gone_on = goes_on(held, journal);
    let ended = gone_on.number;
    if !(ended == 0) {
        return refused(refusal::JOURNAL_MALFORMED);
    }
    let book = gone_on.book;
    let r = asking::answers_sound(book, questions, out);
    sized(r)
}

// The offset of the first wrong field of a snapshot, 2^64 − 1 where none is wrong.
#[unsafe(no_mangle)]
pub extern "C" fn solgaverna_faulty_snapshot(from: &[u8]) -> u64
    ensures { result ≡ wrong_field (reading from.now) }
{
    let loaded = snapshot::read(from);
    let number = loaded.number;
    if !(number == refusal::JOURNAL_MALFORMED) {
        return u64::MAX;
    }
    let at = loaded.at;
    at as u64
}
