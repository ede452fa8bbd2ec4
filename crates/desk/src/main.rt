// Reads a journal of at most 32,768 bytes from standard input and writes its listing, from a fresh book or from a snapshot's.
#![tactic(auto)]

ghost use Rattle.std.specs.Prelude.{◌≡◌, true, false, ◌≤◌, length};
ghost use Rattle.book.specs.Stored.{model_of, book_test};
ghost use Rattle.replay.specs.Text.{listing_on, listing_of};
ghost use Rattle.sheet.specs.Shown.{shown_in};

use book::Book;
use replay::Listed;
use std::env::Env;
use std::process::ExitCode;
use std::rt::Files;

fn usage() -> bool {
    files::say(
        b"usage: ./run desk < JOURNAL\n       ./run desk --from SNAPSHOT < JOURNAL\n       ./run desk --help\n",
    );
    false
}

fn help() {
    io::write_all(
        1,
        b"./run desk < JOURNAL
  Replays a journal from a fresh book of its edition, and lists its answers and the book that it leaves.
./run desk --from SNAPSHOT < JOURNAL
  The same on the book of SNAPSHOT. The journal's edition is the snapshot's.
The lines: the edition; a command's number and its answer; account ID BALANCE ALLOWANCE OFFERED ACCEPTED; totals FINANCED REPAID FEES.
",
    );
}

fn too_long() {
    io::write_all(1, b"0 14\n");
}

// Whether a journal has more than 32,768 bytes, or its input goes on past them.
fn goes_on(fd: i32, s: &[u8]) -> bool
    ensures { result ≡ false → length s.now ≤ 32768 }
{
    if s.len() < 32768 {
        return false;
    }
    if s.len() > 32768 {
        return true;
    }
    let mut more: [u8; 1] = [0; 1];
    io::read_full(fd, &mut more) > 0
}

// The listing of such a journal; its length. It has room (the law `desk_room`), so that the last arm is never taken.
fn list(s: &[u8], out: &mut [u8]) -> usize
    requires { (length s.now ≤ 32768) × (length out.old ≡ 40960) }
    ensures { (result ≡ length (listing_of s.now)) × (out.new ≡ shown_in (listing_of s.now) out.old) }
{
    let r = replay::listing(s, out);
    match r {
        Listed::Done(k) => k,
        _ => 0,
    }
}

// The same from a sound book.
fn list_from(book: Book, s: &[u8], out: &mut [u8]) -> usize
    requires { ((length s.now ≤ 32768) × (length out.old ≡ 40960)) × (book_test book ≡ true) }
    ensures value { (result ≡ length (listing_on (model_of book) s.now)) × (out.new ≡ shown_in (listing_on (model_of book) s.now) out.old) }
    ensures upper_bound { result ≤ 40960 }
{
    let r = replay::listing_from(book, s, out);
    match r {
        Listed::Done(k) => k,
        _ => 0,
    }
}

// Writes the listing of a journal, the first 32,768 bytes of an input or all of it, to standard output.
fn show(fd: i32, s: &[u8]) {
    if goes_on(fd, s) {
        too_long();
        return;
    }
    let mut out: [u8; 40960] = [0; 40960];
    let k = list(s, &mut out);
    io::write_all(1, &out[..k]);
}

// The same from a sound book.
fn show_from(fd: i32, book: Book, s: &[u8])
    requires { book_test book ≡ true }
{
    if goes_on(fd, s) {
        too_long();
        return;
    }
    let mut out: [u8; 40960] = [0; 40960];
    let k = list_from(book, s, &mut out);
    io::write_all(1, &out[..k]);
}

// The listing of standard input from a snapshot's book; whether there is that book.
fn run_from(rt: &(impl Env + Files)) -> bool {
    let mut word = io::buffer();
    let size = files::word(rt, 2, &mut word);
    if size == 0 {
        return usage();
    }
    let start = loading::load(rt, &word[..size]);
    let book = start.book;
    if start.here {
        let mut journal: [u8; 32768] = [0; 32768];
        let n = io::read_full(0, &mut journal);
        show_from(0, book, &journal[..n]);
    }
    start.here
}

fn run() {
    let mut journal: [u8; 32768] = [0; 32768];
    let n = io::read_full(0, &mut journal);
    show(0, &journal[..n]);
}

// What the words ask for, and whether it went well.
fn obey(rt: &(impl Env + Files)) -> bool {
    let count = files::word_count(rt);
    if count < 2 {
        run();
        return true;
    }
    let mut word = io::buffer();
    let size = files::word(rt, 1, &mut word);
    if files::asks_help(&word[..size]) {
        help();
        return true;
    }
    if check::same(&word[..size], b"--from") & (count == 3) {
        return run_from(rt);
    }
    usage()
}

fn main(rt: HostRuntime) -> ExitCode {
    files::status(obey(&rt))
}
