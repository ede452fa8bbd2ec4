// Replays the journal that its argument names, from a fresh book or on a snapshot's, and answers the questions on standard input, each line
// as it comes.
#![tactic(auto)]

ghost use Rattle.std.specs.Prelude.{◌≡◌, true, ℕ, ◌≤◌, length};
ghost use Rattle.text.specs.declared.Answer.TheVariants.{Done};
ghost use Rattle.book.specs.Stored.{book_test, Shelved};

use book::Book;
use files::say;
use loading::Given;
use std::env::Env;
use std::io::Read;
use std::process::ExitCode;
use std::rt::Files;
use text::Answer;

// A question's line never has so many bytes.
const LINE: usize = 1024;

fn usage() -> bool {
    say(
        b"usage: ./run ask JOURNAL < QUESTIONS
       ./run ask --from SNAPSHOT JOURNAL < QUESTIONS
       ./run ask --help
",
    );
    false
}

fn help() {
    io::write_all(
        1,
        b"./run ask JOURNAL < QUESTIONS
./run ask --from SNAPSHOT JOURNAL < QUESTIONS
Replays a journal, from a fresh book or on that of a snapshot, and answers questions about its book, one a line:
  offer ID                      0 and ten numbers, or 4
  offers-by-invoice ID          0 COUNT, then a line of ten numbers each
  offers-by-lender ID
  offers-by-status CODE         (3 for a code that is not 0 to 5)
  pending-offers ID             of an invoice
  all-offers
  page OFFSET LIMIT
  account ID                    0 balance allowance offered accepted
  lender ID                     0 offered accepted pending repaid
  active ID                     0 SUM
  schedule ID                   0 count code installment first-due kind, or 0 none
  negotiation ID                0 ROUNDS DEADLINE OUTCOME, then party amount rate duration time each
  negotiation-status ID NOW     0 CODE
  due ID NOW                    0 NUMBER OWED
  count window seats threshold paused
                                0 N
  totals                        0 offers financed repaid fees
The ten numbers: id invoice lender amount rate duration expires status funded repaid.
4 says that there is no such offer. An offer's status: 0 Pending, 1 Accepted, 2 Rejected, 3 Financed, 4 Repaid, 5 Defaulted; a
negotiation's status and outcome: 0 none, 1 Open, 2 Closed, 3 Accepted, 4 Expired; a party: 0 lender, 1 originator; a schedule's code:
1 weekly, 2 fortnightly, 3 thirty days, its kind: 0 flat, 1 falling. Seats are a bit each.
",
    );
}

// What was read of standard input and not yet answered, the number of the next line, whether to go on, and whether all went well so far.
#[derive(Clone, Copy)]
struct Session {
    waiting: [u8; 1024],
    size: usize,
    lines: u64,
    goes_on: bool,
    well: bool,
}

fn within(n: usize) -> usize
    ensures { result ≤ 1024 }
{
    if n < LINE {
        return n;
    }
    LINE
}

// Where the first end of a line stands, or the length where there is none.
fn find_end(s: &[u8]) -> usize
    ensures { result ≤ length s.now }
{
    match s.iter().position(|byte| *byte == b'\n') {
        Some(at) => at,
        None => s.len(),
    }
}

// The length of the first line with its end, 0 where there is no end.
fn line_end(s: &[u8]) -> usize
    ensures { result ≤ length s.now }
{
    let end = find_end(s);
    if end < s.len() {
        return end + 1;
    }
    0
}

// The number after this one; the largest stays.
fn counted(lines: u64) -> u64 {
    if lines < u64::MAX {
        return lines + 1;
    }
    lines
}

// What is left once n bytes are taken from the front.
fn rest(waiting: [u8; 1024], n: usize) -> [u8; 1024] {
    let mut left = [0u8; 1024];
    let mut i = n;
    while i < LINE {
        left[i - n] = waiting[i];
        i += 1;
    }
    left
}

// An answer on standard output, or a complaint.
fn write(rt: &impl Print, words: &[u8]) -> bool {
    match rt.write_all(words) {
        Ok(()) => true,
        Err(e) => {
            files::broken(b"standard output", e);
            false
        }
    }
}

// One line answered on standard output. A line that is no question ends the session.
fn show(rt: &impl Print, r: Answer, out: &[u8], line: &[u8], number: u64) -> bool
    requires { (k : ℕ) → r ≡ Done k → k ≤ length out.now }
{
    match r {
        Answer::Done(k) => {
            return write(rt, &out[..k]);
        }
        Answer::Malformed(_) => {
            no_question(line, number);
        }
        Answer::Short => {
            say(b"the answer has more than 16,384 bytes\n");
        }
    }
    false
}

fn no_question(line: &[u8], number: u64) {
    say(b"line ");
    files::say_number(number);
    say(b" is no question (./run ask --help lists them): \"");
    say_start(line);
    say(b"\"\n");
}

// At most the first 64 bytes of a line, without its end.
fn say_start(line: &[u8]) {
    let end = find_end(line);
    if end < 64 {
        say(&line[..end]);
        return;
    }
    say(&line[..64]);
    say(b"..");
}

fn answer(rt: &impl Print, book: Book, line: &[u8], number: u64) -> bool
    requires shelved { Shelved book }
    requires tested { book_test book ≡ true }
{
    let mut out: [u8; 16384] = [0; 16384];
    let r = asking::answers_sound(book, line, &mut out);
    show(rt, r, &out, line, number)
}

// What waits with more behind it, how many bytes came, and whether that went well.
#[derive(Clone, Copy)]
struct Filled {
    waiting: [u8; 1024],
    came: usize,
    well: bool,
}

fn fill(rt: &impl Input, mut waiting: [u8; 1024], size: usize) -> Filled {
    let from = within(size);
    match rt.reader().read(&mut waiting[from..]) {
        Ok(came) => Filled {
            waiting,
            came,
            well: true,
        },
        Err(e) => {
            files::broken(b"standard input", e);
            Filled {
                waiting,
                came: 0,
                well: false,
            }
        }
    }
}

fn ended(mut waiting: [u8; 1024], size: usize) -> [u8; 1024] {
    if size < LINE {
        waiting[size] = b'\n';
    }
    waiting
}

// More of standard input. What stands there at its end without the end of a line is a line too.
fn read_more(rt: &impl Input, s: Session) -> Session {
    let size = within(s.size);
    let waiting = s.waiting;
    let m = fill(rt, waiting, size);
    let came = within(m.came);
    let filled = m.waiting;
    if came > 0 {
        return Session {
            waiting: filled,
            size: size + came,
            lines: s.lines,
            goes_on: true,
            well: s.well,
        };
    }
    let last = ended(filled, size);
    Session {
        waiting: last,
        size: size + 1,
        lines: s.lines,
        goes_on: size > 0,
        well: s.well && m.well,
    }
}

// The length of the first line that waits; 0 where more is to be read for it. One without an end that fills all places is a line too.
fn first_line(waiting: [u8; 1024], size: usize) -> usize {
    let n = within(size);
    let end = line_end(&waiting[..n]);
    if end > 0 {
        return end;
    }
    if n < LINE {
        return 0;
    }
    LINE
}

fn answer_first(rt: &impl Print, book: Book, waiting: [u8; 1024], end: usize, number: u64) -> bool
    requires shelved { Shelved book }
    requires tested { book_test book ≡ true }
{
    let n = within(end);
    answer(rt, book, &waiting[..n], number)
}

fn less(size: usize, end: usize) -> usize {
    if end < size {
        return size - end;
    }
    0
}

// The first line that waits is answered, or more is read.
fn turn(rt: &(impl Input + Print), book: Book, s: Session) -> Session
    requires shelved { Shelved book }
    requires tested { book_test book ≡ true }
{
    let waiting = s.waiting;
    let end = first_line(waiting, s.size);
    if end == 0 {
        return read_more(rt, s);
    }
    let answered = answer_first(rt, book, waiting, end, s.lines);
    let left = rest(waiting, end);
    Session {
        waiting: left,
        size: less(s.size, end),
        lines: counted(s.lines),
        goes_on: answered,
        well: s.well && answered,
    }
}

// Questions until the input ends, or a line is none; whether all went well. The loop counts down from a number that no run uses up.
fn serve(rt: &(impl Input + Print), book: Book) -> bool
    requires shelved { Shelved book }
    requires tested { book_test book ≡ true }
{
    let mut s = Session {
        waiting: [0; 1024],
        size: 0,
        lines: 1,
        goes_on: true,
        well: true,
    };
    let mut turns = u64::MAX;
    while turns > 0 && s.goes_on {
        s = turn(rt, book, s);
        turns -= 1;
    }
    s.well
}

fn warn(answered: usize, at: usize) {
    if at == 0 {
        say(
            b"warning: record 0 at offset 0, the header, is malformed (13); answers are from a fresh book\n",
        );
        return;
    }
    say(b"warning: record ");
    files::say_number(counted(answered as u64));
    say(b" at offset ");
    files::say_number(at as u64);
    say(b" is malformed (13); answers are from the book before it\n");
}

fn answer_from(rt: &(impl Input + Print), journal: &[u8]) -> bool {
    let outcome = replay::replay(journal);
    let book = outcome.book;
    if outcome.number != 0 {
        warn(outcome.count, outcome.at);
    }
    serve(rt, book)
}

// A journal of another edition leaves the snapshot's book as it is.
fn warn_from(journal: &[u8], answered: usize, at: usize) {
    if at != 0 {
        warn(answered, at);
        return;
    }
    say(b"warning: record 0 at offset 0, the header, ");
    if let Ok(header) = journal::header(journal) {
        say(b"is of edition ");
        files::say_number(u64::from(header.edition));
        say(b", not the snapshot's");
    } else {
        say(b"is malformed");
    }
    say(b" (13); answers are from the snapshot's book\n");
}

// The same on a sound book.
fn answer_on(rt: &(impl Input + Print), book: Book, journal: &[u8]) -> bool
    requires { book_test book ≡ true }
{
    let outcome = replay::replay_from(book, journal);
    let left = outcome.book;
    if outcome.number != 0 {
        warn_from(journal, outcome.count, outcome.at);
    }
    serve(rt, left)
}

// The journal of a file, up to its limit, on the given book or on a fresh one.
fn read_journal(rt: &(impl Files + Input + Print), start: Given, path: &[u8]) -> bool
    requires { book_test start.book ≡ true }
{
    let Some(mut file) = files::open(rt, path) else {
        return false;
    };
    let mut journal: [u8; 32768] = [0; 32768];
    let n = files::read_full(&mut file, &mut journal);
    if !files::ends(file, path, b"more than 32,768 bytes (14)") {
        return false;
    }
    let book = start.book;
    if start.here {
        return answer_on(rt, book, &journal[..n]);
    }
    answer_from(rt, &journal[..n])
}

// The journal that a word names.
fn run(rt: &(impl Env + Files + Input + Print), start: Given, place: usize) -> bool
    requires { book_test start.book ≡ true }
{
    let mut word = io::buffer();
    let size = files::word(rt, place, &mut word);
    if size == 0 {
        return usage();
    }
    read_journal(rt, start, &word[..size])
}

fn run_from(rt: &(impl Env + Files + Input + Print)) -> bool {
    let mut word = io::buffer();
    let size = files::word(rt, 2, &mut word);
    if size == 0 {
        return usage();
    }
    let start = loading::load(rt, &word[..size]);
    start.here && run(rt, start, 3)
}

// What the words ask for, and whether it went well.
fn obey(rt: &(impl Env + Files + Input + Print)) -> bool {
    let mut word = io::buffer();
    let size = files::word(rt, 1, &mut word);
    let count = files::word_count(rt);
    if files::asks_help(&word[..size]) & (count == 2) {
        help();
        return true;
    }
    let from = check::same(&word[..size], b"--from");
    if from & (count == 4) {
        return run_from(rt);
    }
    if from | (count != 2) {
        return usage();
    }
    run(rt, loading::none(), 1)
}

fn main(rt: HostRuntime) -> ExitCode {
    files::status(obey(&rt))
}
