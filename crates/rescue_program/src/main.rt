// Writes a clean journal from a damaged one, and says what was dropped and what was left.
#![tactic(auto)]

use refusal::Refusal;
use std::env::Env;
use std::io::Error;
use std::process::ExitCode;
use std::rt::Files;

fn usage() -> bool {
    files::say(
        b"usage: ./run rescue IN OUT
       ./run rescue --help
",
    );
    false
}

fn help() {
    io::write_all(
        1,
        b"./run rescue IN OUT
  Writes the journal IN to OUT without its malformed records, each of the others as it is, and says on standard output
  what OUT lacks: a line `dropped OFFSET` for each malformed record, then `left N` where the last N bytes were not read.
  An undamaged journal comes out unchanged, and nothing is said. OUT may be IN.
OUT is written beside itself, as OUT.new, and takes its name when it is whole. Where anything is wrong a message says what
and the status is 1; OUT stays as it was unless only the report could not be written. A bad header is 13. docs/RESCUE.md says which records are malformed.
",
    );
}

// A line of the report.
fn tell(rt: &impl Print, word: &str, n: u64) -> std::io::Result<()> {
    println!(rt; "{word} {n}")
}

// The offset of each dropped record, then how many bytes are left.
fn report_all(rt: &impl Print, report: &[u64], left: usize) -> std::io::Result<()> {
    for at in report {
        tell(rt, "dropped", *at)?;
    }
    if left == 0 {
        return Ok(());
    }
    tell(rt, "left", left as u64)
}

fn unreported(path: &[u8], error: Error) {
    files::broken(b"standard output", error);
    files::complain(path, b"it is written; its report is not");
}

// The clean journal into its file, and the report where that went well.
fn put(rt: &(impl Files + Print), path: &[u8], clean: &[u8], report: &[u64], left: usize) -> bool {
    if !files::replace(rt, path, clean) {
        return false;
    }
    match report_all(rt, report, left) {
        Ok(()) => true,
        Err(e) => {
            unreported(path, e);
            false
        }
    }
}

fn bad_header(path: &[u8]) {
    io::write_all(1, b"13\n");
    files::complain(
        path,
        b"the header, at offset 0, is malformed or names an edition that there is not (13); nothing was written",
    );
}

// A journal of at most 65,536 bytes has at most 21,843 outer fields, so that every offset has its place.
fn save(rt: &(impl Files + Print), path: &[u8], s: &[u8], out: &[u8]) -> bool {
    let mut clean: [u8; 65536] = io::large_buffer();
    let mut report: [u64; 21843] = [0; 21843];
    match rescue::rescue(s, &mut clean, &mut report) {
        Ok(done) => put(
            rt,
            out,
            &clean[..done.size],
            &report[..done.dropped],
            done.left,
        ),
        Err(Refusal::JournalMalformed) => {
            bad_header(path);
            false
        }
        Err(_) => {
            files::complain(path, b"it is too long (14); nothing was written");
            false
        }
    }
}

// The journal of a file, up to its limit.
fn read_journal(rt: &(impl Files + Print), path: &[u8], out: &[u8]) -> bool {
    let Some(mut file) = files::open(rt, path) else {
        return false;
    };
    let mut bytes: [u8; 65536] = io::large_buffer();
    let n = files::read_full(&mut file, &mut bytes);
    if !files::ends(
        file,
        path,
        b"more than 65,536 bytes (14); nothing was written",
    ) {
        return false;
    }
    save(rt, path, &bytes[..n], out)
}

fn run(rt: &(impl Env + Files + Print)) -> bool {
    let mut path = io::buffer();
    let n = files::word(rt, 1, &mut path);
    let mut out = io::buffer();
    let k = files::word(rt, 2, &mut out);
    if (n == 0) | (k == 0) {
        return usage();
    }
    read_journal(rt, &path[..n], &out[..k])
}

// What the words ask for, and whether it went well.
fn obey(rt: &(impl Env + Files + Print)) -> bool {
    let mut word = io::buffer();
    let size = files::word(rt, 1, &mut word);
    if files::asks_help(&word[..size]) {
        help();
        return true;
    }
    if files::word_count(rt) != 3 {
        return usage();
    }
    run(rt)
}

fn main(rt: HostRuntime) -> ExitCode {
    files::status(obey(&rt))
}
