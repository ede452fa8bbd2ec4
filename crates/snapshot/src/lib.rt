// A book as a snapshot: flat fields of one number, in the order of one table (specs/Layout.antt).
#![tactic(auto)]

mod reading;
mod rows;
mod tags;
mod writing;

ghost use Rattle.std.specs.Prelude.{◌≡◌};
ghost use Rattle.codec.specs.Whole.{refused};
ghost use Rattle.snapshot.specs.Snapshot.{Saved, reading, loaded_as};

use book::Book;

// The number of a refusal and its offset, with the first edition's fresh book; or 0 and the book.
#[derive(Clone, Copy)]
pub struct Loaded {
    pub number: u64,
    pub at: usize,
    pub book: Book,
}

// The number of a refusal, or 0 and how many bytes were written.
#[derive(Clone, Copy)]
pub struct Written {
    pub number: u64,
    pub size: usize,
}

fn refused(number: u64, at: usize) -> Loaded
    ensures { result ≡ loaded_as (refused number at) }
{
    let book = Book::of_edition(edition::FIRST);
    Loaded { number, at, book }
}

// The book that bytes are a snapshot of.
pub fn read(s: &[u8]) -> Loaded
    ensures { result ≡ reading s.now }
{
    let e = reading::read_edition(s);
    let p = reading::read_settings(s, e.c, e.row);
    let t = reading::read_totals(s, p.c);
    let a = reading::read_accounts(s, t.c);
    let i = reading::read_invoices(s, a.c);
    let o = reading::read_offers(s, i.c, e.row);
    let c = o.c;
    if c.code != 0 {
        return refused(c.code, c.at);
    }
    if c.at != s.len() {
        return refused(refusal::JOURNAL_MALFORMED, c.at);
    }
    let book = Book {
        accounts: a.row,
        invoices: i.row,
        offers: o.row,
        totals: t.row,
        settings: p.row,
    };
    let sound = book.sound();
    if !(c.ok & sound) {
        return refused(refusal::BOOK_UNSOUND, 0);
    }
    Loaded {
        number: 0,
        at: 0,
        book,
    }
}

// Writes a book's snapshot at the start of a lent buffer; the buffer stays as it is where the book is unsound or there is no room. A
// book that was written is one that can be read back.
pub fn write(book: Book, out: &mut [u8]) -> Written
    ensures { Saved book out.old result out.new }
{
    if !book.sound() {
        return Written {
            number: refusal::BOOK_UNSOUND,
            size: 0,
        };
    }
    let dry = writing::put_book(out, false, book);
    if dry.short {
        return Written {
            number: refusal::BUFFER_SHORT,
            size: 0,
        };
    }
    let wet = writing::put_book(out, true, book);
    Written {
        number: 0,
        size: wet.at,
    }
}
