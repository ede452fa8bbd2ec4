// Replays a journal from a fresh book of its edition, or on a snapshot's, and writes the snapshot of what it leaves.
#![tactic(auto)]

ghost use Rattle.std.specs.Prelude.{◌≡◌};
ghost use Rattle.refusal.specs.Choice.{pick};
ghost use Rattle.replay.specs.Replay.{replay_of, outcome_of, replayed_from};

use book::Book;
use loading::Given;
use replay::Outcome;
use std::env::Env;
use std::process::ExitCode;
use std::rt::Files;

fn usage() -> bool {
    files::say(
        b"usage: ./run snapshot JOURNAL OUT
       ./run snapshot --from SNAPSHOT JOURNAL OUT
       ./run snapshot --help
",
    );
    false
}

fn help() {
    io::write_all(
        1,
        b"./run snapshot JOURNAL OUT
  Replays JOURNAL from a fresh book of its edition and writes the snapshot of what it leaves to OUT.
./run snapshot --from SNAPSHOT JOURNAL OUT
  The same on the book of SNAPSHOT. The journal's edition is the snapshot's. OUT may be SNAPSHOT.
OUT is written beside itself, as OUT.new, and takes its name when it is whole. Where anything is wrong a message says what,
the status is 1 and OUT stays as it was. docs/SNAPSHOT.md says what a snapshot holds.
",
    );
}

// What a journal leaves: of the given book, or of a fresh one of its edition where none is given.
fn replayed(start: Given, s: &[u8]) -> Outcome
    ensures { result ≡ pick start.here (replayed_from start.book s.now) (outcome_of 0 (replay_of s.now)) }
{
    if start.here {
        return replay::replay_from(start.book, s);
    }
    replay::replay(s)
}

// A header that is good and names another edition than the given book's.
fn other_edition(path: &[u8], named: u32, own: u32) {
    files::say(path);
    files::say(b": its edition is ");
    files::say_number(named as u64);
    files::say(b" and not the snapshot's, which is ");
    files::say_number(own as u64);
    files::say(b" (13); nothing was written\n");
}

fn malformed(path: &[u8], record: u64, at: usize) {
    files::say(path);
    files::say(b": record ");
    files::say_number(record);
    files::say(b" at offset ");
    files::say_number(at as u64);
    if at == 0 {
        files::say(b", the header,");
    }
    files::say(b" is malformed (13); nothing was written\n");
}

// The number of the record after so many; the largest stays.
fn next(count: usize) -> u64 {
    (count as u64).saturating_add(1)
}

// What is wrong at the start of a journal: its header, or the edition that it names.
fn bad_start(path: &[u8], s: &[u8], own: u32) {
    match journal::header(s) {
        Ok(header) => other_edition(path, header.edition, own),
        Err(at) => malformed(path, 0, at),
    }
}

// Why a journal was not replayed to its end.
fn stopped(path: &[u8], s: &[u8], own: u32, r: &Outcome) {
    if r.number == refusal::BOOK_UNSOUND {
        files::say(path);
        files::say(b": the book before it is not sound (15); nothing was written\n");
        return;
    }
    if r.at == 0 {
        bad_start(path, s, own);
        return;
    }
    malformed(path, next(r.count), r.at);
}

// Why a book has no snapshot.
fn unwritten(path: &[u8], number: u64) {
    files::say(path);
    files::say(b": the book has no snapshot of at most 81,920 bytes (");
    files::say_number(number);
    files::say(b"); nothing was written\n");
}

// Writes the snapshot of a book into a file, or says why not.
fn save(rt: &impl Files, path: &[u8], book: Book) -> bool {
    let mut out: [u8; 81920] = [0; 81920];
    let w = snapshot::write(book, &mut out);
    if w.number != 0 {
        unwritten(path, w.number);
        return false;
    }
    files::replace(rt, path, &out[..w.size])
}

// Writes the snapshot of what a journal leaves, or says why there is none.
fn keep(rt: &impl Files, start: Given, journal: &[u8], s: &[u8], out: &[u8]) -> bool {
    let r = replayed(start, s);
    if r.number != 0 {
        stopped(journal, s, start.book.settings.edition, &r);
        return false;
    }
    save(rt, out, r.book)
}

// The journal of a file, up to its limit.
fn read_journal(rt: &impl Files, start: Given, journal: &[u8], out: &[u8]) -> bool {
    let Some(mut file) = files::open(rt, journal) else {
        return false;
    };
    let mut bytes: [u8; 32768] = [0; 32768];
    let n = files::read_full(&mut file, &mut bytes);
    if !files::ends(
        file,
        journal,
        b"more than 32,768 bytes (14); nothing was written",
    ) {
        return false;
    }
    keep(rt, start, journal, &bytes[..n], out)
}

// The journal and the file to write, as two words name them.
fn run(rt: &(impl Env + Files), start: Given, first: usize, second: usize) -> bool {
    let mut journal = io::buffer();
    let n = files::word(rt, first, &mut journal);
    let mut out = io::buffer();
    let k = files::word(rt, second, &mut out);
    if n == 0 || k == 0 {
        return usage();
    }
    if check::same(&journal[..n], &out[..k]) {
        files::complain(&out[..k], b"is the journal itself; nothing was written");
        return false;
    }
    read_journal(rt, start, &journal[..n], &out[..k])
}

fn run_from(rt: &(impl Env + Files)) -> bool {
    let mut word = io::buffer();
    let size = files::word(rt, 2, &mut word);
    if size == 0 {
        return usage();
    }
    let start = loading::load(rt, &word[..size]);
    start.here && run(rt, start, 3, 4)
}

// What the words ask for, and whether it went well.
fn obey(rt: &(impl Env + Files)) -> bool {
    let mut word = io::buffer();
    let size = files::word(rt, 1, &mut word);
    let count = files::word_count(rt);
    if files::asks_help(&word[..size]) {
        help();
        return true;
    }
    let from = check::same(&word[..size], b"--from");
    if from && count == 5 {
        return run_from(rt);
    }
    if from || count != 3 {
        return usage();
    }
    run(rt, loading::none(), 1, 2)
}

fn main(rt: HostRuntime) -> ExitCode {
    files::status(obey(&rt))
}
