// Serves the proved book over standard input and output, so that a program of another language can hold it beside its own. A
// request is a frame of 128 bytes: numbers of eight bytes, of which the first says what is asked, and the record of a command from
// byte 32 on. A book or a journal follows its frame in 65,536 bytes, a snapshot of at most 4,096 in so many, a longer one in 81,920. An
// answer is its length in bytes, its own eight included, and then its numbers; a text, a snapshot or a rescue's bytes follow it.
#![tactic(auto)]

ghost use Rattle.std.specs.Prelude.{◌≡◌, length};
ghost use Rattle.journal.specs.Format.{read_at};
ghost use Rattle.bridge.specs.Whole.{refused_by, whole_record};

use book::{Book, Step};
use journal::Decoded;
use refusal::Refusal;
use replay::Listed;
use rescue::Clean;
use snapshot::{Loaded, Written};

// What a request asks.
const FRESH: u64 = 1;

const LOAD: u64 = 2;

const APPLY: u64 = 3;

const SHOW: u64 = 4;

const LIST: u64 = 5;

const ASK: u64 = 6;

const LISTING: u64 = 7;

const WRITE: u64 = 8;

const READ: u64 = 9;

const LISTING_FROM: u64 = 10;

const RESCUE: u64 = 11;

// A snapshot of so many bytes follows its frame in so many.
const SMALL: u64 = 4096;

fn malformed(book: Book) -> Step
    ensures { result ≡ refused_by book }
{
    Step {
        answer: refusal::JOURNAL_MALFORMED,
        book,
    }
}

// One whole record, and nothing after it, is applied; any other bytes are malformed.
fn apply(book: Book, s: &[u8]) -> Step
    ensures { result ≡ whole_record book (read_at book.settings.edition s.now 0) (length s.now) }
{
    let settings = book.settings;
    let d = journal::decode(settings.edition, s, 0);
    match d {
        Decoded::Command(c, next) => {
            if next != s.len() {
                return malformed(book);
            }
            return book.apply(c);
        }
        Decoded::Malformed(_) => {
            return malformed(book);
        }
        Decoded::End => {
            return malformed(book);
        }
    }
}

// Sends an answer that ends at a place.
fn send(out: &[u8], at: usize) {
    if at <= out.len() {
        io::write_all(1, &out[..at]);
    }
}

fn send_number(n: u64) {
    let mut out: [u8; 65536] = io::large_buffer();
    let at = bridge_words::put(&mut out, 8, n);
    bridge_words::put(&mut out, 0, at as u64);
    send(&out, at);
}

fn send_pair(one: u64, two: u64) {
    let mut out: [u8; 65536] = io::large_buffer();
    let past = bridge_words::put(&mut out, 8, one);
    let at = bridge_words::put(&mut out, past, two);
    bridge_words::put(&mut out, 0, at as u64);
    send(&out, at);
}

fn loaded() -> Book {
    let mut data: [u8; 65536] = io::large_buffer();
    io::read_full(0, &mut data);
    bridge_load::book(&data)
}

fn applied(book: Book, frame: [u8; 128]) -> Book {
    let n = wire::number(&frame, 8);
    if 96 < n {
        send_number(refusal::JOURNAL_MALFORMED);
        return book;
    }
    let end = 32 + n as usize;
    let t = apply(book, &frame[32..end]);
    send_number(t.answer);
    t.book
}

fn shown(book: Book) {
    let mut out: [u8; 65536] = io::large_buffer();
    let at = bridge_show::book(&mut out, 8, book);
    bridge_words::put(&mut out, 0, at as u64);
    send(&out, at);
}

fn list(book: Book, frame: [u8; 128]) {
    let mut out: [u8; 65536] = io::large_buffer();
    let w = bridge_ask::wanted(
        wire::number(&frame, 8),
        wire::number(&frame, 16),
        wire::number(&frame, 24),
    );
    let at = bridge_ask::list(
        &mut out,
        book,
        w,
        wire::number(&frame, 32),
        wire::number(&frame, 40),
    );
    bridge_words::put(&mut out, 0, at as u64);
    send(&out, at);
}

fn asked(book: Book, frame: [u8; 128]) {
    let mut out: [u8; 65536] = io::large_buffer();
    let at = bridge_ask::ask(
        &mut out,
        book,
        wire::number(&frame, 8),
        wire::number(&frame, 16),
        wire::number(&frame, 24),
    );
    bridge_words::put(&mut out, 0, at as u64);
    send(&out, at);
}

// Writes the listing of the first n bytes, and answers how long it is.
fn listing_of(data: &[u8], n: usize, out: &mut [u8; 65536]) -> usize {
    if data.len() < n {
        return 0;
    }
    let r = replay::listing(&data[..n], out);
    match r {
        Listed::Done(k) => k,
        _ => 0,
    }
}

// The listing of a journal: its length, then its bytes.
fn listing(frame: [u8; 128]) {
    let n = wire::number(&frame, 8);
    let mut data: [u8; 65536] = io::large_buffer();
    io::read_full(0, &mut data);
    let mut out: [u8; 65536] = io::large_buffer();
    let k = listing_of(&data, n as usize, &mut out);
    send_number(k as u64);
    send(&out, k);
}

// The same of a journal that goes on from the book.
fn listing_on(book: Book, data: &[u8], n: usize, out: &mut [u8; 65536]) -> usize {
    if data.len() < n {
        return 0;
    }
    let r = replay::listing_from(book, &data[..n], out);
    match r {
        Listed::Done(k) => k,
        _ => 0,
    }
}

// The book that such a journal leaves.
fn book_after(book: Book, data: &[u8], n: usize) -> Book {
    if data.len() < n {
        return book;
    }
    replay::replay_from(book, &data[..n]).book
}

fn continued(book: Book, frame: [u8; 128]) -> Book {
    let n = wire::number(&frame, 8);
    let mut data: [u8; 65536] = io::large_buffer();
    io::read_full(0, &mut data);
    let mut out: [u8; 65536] = io::large_buffer();
    let k = listing_on(book, &data, n as usize, &mut out);
    send_number(k as u64);
    send(&out, k);
    book_after(book, &data, n as usize)
}

// Writes the book's snapshot into the first bytes of a buffer.
fn save_part(book: Book, room: usize, out: &mut [u8]) -> Written {
    if out.len() < room {
        return Written {
            number: refusal::BUFFER_SHORT,
            size: 0,
        };
    }
    snapshot::write(book, &mut out[..room])
}

// A snapshot: its number and its size, then its bytes.
fn saved(book: Book, frame: [u8; 128]) {
    let room = wire::number(&frame, 8);
    let mut out: [u8; 81920] = [0; 81920];
    let w = save_part(book, room as usize, &mut out);
    send_pair(w.number, w.size as u64);
    send(&out, w.size);
}

// What the first n bytes are a snapshot of.
fn read_part(data: &[u8], n: usize) -> Loaded {
    if data.len() < n {
        return snapshot::read(data);
    }
    snapshot::read(&data[..n])
}

fn read_large(n: usize) -> Loaded {
    let mut data: [u8; 81920] = [0; 81920];
    io::read_full(0, &mut data);
    read_part(&data, n)
}

fn read_small(n: usize) -> Loaded {
    let mut data: [u8; 4096] = [0; 4096];
    io::read_full(0, &mut data);
    read_part(&data, n)
}

fn read_of(n: u64) -> Loaded {
    if SMALL < n {
        return read_large(n as usize);
    }
    read_small(n as usize)
}

// Reads a snapshot: the number and the offset, and the book where the number is 0.
fn restored(book: Book, frame: [u8; 128]) -> Book {
    let l = read_of(wire::number(&frame, 8));
    send_pair(l.number, l.at as u64);
    if l.number != 0 {
        return book;
    }
    l.book
}

fn send_four(one: u64, two: u64, three: u64, four: u64) {
    let mut out: [u8; 65536] = io::large_buffer();
    let second = bridge_words::put(&mut out, 8, one);
    let third = bridge_words::put(&mut out, second, two);
    let fourth = bridge_words::put(&mut out, third, three);
    let at = bridge_words::put(&mut out, fourth, four);
    bridge_words::put(&mut out, 0, at as u64);
    send(&out, at);
}

// Rescues the first n bytes into the first bytes of a buffer, with the report in the first numbers of another.
fn rescue_part(
    data: &[u8],
    n: usize,
    out: &mut [u8],
    room: usize,
    report: &mut [u64],
    most: usize,
) -> Result<Clean, Refusal> {
    if data.len() < n {
        return Err(Refusal::BufferShort);
    }
    if out.len() < room {
        return Err(Refusal::BufferShort);
    }
    if report.len() < most {
        return Err(Refusal::BufferShort);
    }
    rescue::rescue(&data[..n], &mut out[..room], &mut report[..most])
}

fn rescue_in(
    data: &[u8; 65536],
    n: usize,
    out: &mut [u8; 65536],
    room: usize,
    report: &mut [u64; 8192],
    most: usize,
) -> Result<Clean, Refusal> {
    rescue_part(data, n, out, room, report, most)
}

// Sends the first n offsets of a report.
fn send_offsets(report: &[u64; 8192], n: usize) {
    let mut out: [u8; 65536] = io::large_buffer();
    let mut at = 0;
    for offset in report.iter().take(n) {
        at = bridge_words::put(&mut out, at, *offset);
    }
    send(&out, at);
}

// A rescue: its number, the clean journal's size, how many records were dropped and how many bytes are left, then the bytes and the
// offsets.
fn rescued(frame: [u8; 128]) {
    let n = wire::number(&frame, 8);
    let room = wire::number(&frame, 16);
    let most = wire::number(&frame, 24);
    let mut data: [u8; 65536] = io::large_buffer();
    io::read_full(0, &mut data);
    let mut out: [u8; 65536] = io::large_buffer();
    let mut report: [u64; 8192] = [0; 8192];
    let r = rescue_in(
        &data,
        n as usize,
        &mut out,
        room as usize,
        &mut report,
        most as usize,
    );
    match r {
        Ok(clean) => {
            send_four(
                0,
                clean.size as u64,
                clean.dropped as u64,
                clean.left as u64,
            );
            send(&out, clean.size);
            send_offsets(&report, clean.dropped);
        }
        Err(refusal) => send_four(refusal.number(), 0, 0, 0),
    }
}

fn fresh(edition: u64) -> Book {
    Book::fresh(bridge_words::half(edition)).book
}

fn served(book: Book, frame: [u8; 128]) -> Book {
    match wire::number(&frame, 0) {
        FRESH => return fresh(wire::number(&frame, 8)),
        LOAD => return loaded(),
        APPLY => return applied(book, frame),
        SHOW => shown(book),
        LIST => list(book, frame),
        ASK => asked(book, frame),
        LISTING => listing(frame),
        WRITE => saved(book, frame),
        READ => return restored(book, frame),
        LISTING_FROM => return continued(book, frame),
        RESCUE => rescued(frame),
        _ => {}
    }
    book
}

// The book after a request, where there is one.
fn take_turn(book: Book) -> Option<Book> {
    let mut frame: [u8; 128] = [0; 128];
    if io::read_full(0, &mut frame) < 128 {
        return None;
    }
    Some(served(book, frame))
}

fn main() {
    let mut book = Book::of_edition(edition::FIRST);
    for _ in 0..u64::MAX {
        let Some(next) = take_turn(book) else {
            return;
        };
        book = next;
    }
}
