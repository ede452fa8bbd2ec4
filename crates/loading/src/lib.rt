// A snapshot from a file, with a complaint where it is none.
#![tactic(auto)]

ghost use Rattle.std.specs.Prelude.{◌≡◌, true};
ghost use Rattle.book.specs.Stored.{book_test};

use book::Book;
use std::rt::Files;

// Whether there is a book to start from, and that book; a fresh one where there is none.
#[derive(Clone, Copy)]
pub struct Given {
    pub here: bool,
    pub book: Book,
}

pub fn none() -> Given
    ensures { book_test result.book ≡ true }
{
    let book = Book::of_edition(edition::FIRST);
    Given { here: false, book }
}

// What reading a snapshot answered, where it was refused.
fn refused(path: &[u8], number: u64, at: usize) {
    files::say(path);
    if number == refusal::BOOK_UNSOUND {
        files::say(b": not a sound book");
    } else {
        files::say(b": malformed at offset ");
        files::say_number(at as u64);
    }
    files::say(b" (");
    files::say_number(number);
    files::say(b"); make the snapshot anew from its journals\n");
}

// The book that bytes are a snapshot of, or a complaint that names their file.
fn read(path: &[u8], s: &[u8]) -> Given
    ensures { book_test result.book ≡ true }
{
    let l = snapshot::read(s);
    if l.number != 0 {
        refused(path, l.number, l.at);
    }
    Given {
        here: l.number == 0,
        book: l.book,
    }
}

// The book of a file, or a complaint. No snapshot has more than 81,920 bytes.
pub fn load(rt: &impl Files, path: &[u8]) -> Given
    ensures { book_test result.book ≡ true }
{
    let Some(mut file) = files::open(rt, path) else {
        return none();
    };
    let mut bytes: [u8; 81920] = [0; 81920];
    let n = files::read_full(&mut file, &mut bytes);
    if !files::ends(
        file,
        path,
        b"more than 81,920 bytes; no snapshot is so long (13)",
    ) {
        return none();
    }
    read(path, &bytes[..n])
}
