// What the programs share: words that they were started with, files read and written whole, what went wrong on standard error, and the
// status of one that failed.
#![tactic(auto)]

ghost use Rattle.std.specs.Prelude.{◌≡◌, ◌≤◌, length};
ghost use Rattle.io.specs.Counts.{IsPrefixLen};

use std::env::{Env, FillError};
use std::fmt::InlineText;
use std::fs::{OpenFile, OpenOptions};
use std::io::{Error, ErrorKind, Read, Write};
use std::process::ExitCode;
use std::rt::Files;
use std::{fs, str};

// The descriptor of standard error.
const STDERR: i32 = 2;

pub fn failed() -> ExitCode {
    ExitCode::FAILURE
}

// The status of a program: where anything was wrong, which was said, that of one that failed.
pub fn status(went_well: bool) -> ExitCode {
    if went_well {
        ExitCode::SUCCESS
    } else {
        failed()
    }
}

pub fn say(words: &[u8]) {
    io::write_all(STDERR, words);
}

pub fn say_number(n: u64) {
    io::print_decimal(STDERR, n);
}

// What is wrong with a file, as a line with its name before it.
pub fn complain(path: &[u8], words: &[u8]) {
    say(path);
    say(b": ");
    say(words);
    say(b"\n");
}

// Whether a word is --help or -h.
pub fn asks_help(word: &[u8]) -> bool {
    check::same(word, b"--help") || check::same(word, b"-h")
}

// The word at a place of those that a program was started with; its length, 0 where there is none or it is too long.
pub fn word(rt: &impl Env, place: usize, buf: &mut [u8]) -> usize
    ensures { IsPrefixLen result buf.new }
{
    match rt.arg(place, buf) {
        Ok(n) => n,
        Err(_) => 0,
    }
}

// Whether a program was started with a word at a place.
fn has_word(rt: &impl Env, place: usize) -> bool {
    let mut start = [0u8; 1];
    match rt.arg(place, &mut start) {
        Err(FillError::NotPresent) => false,
        _ => true,
    }
}

// How many words a program was started with, its own name the first.
pub fn word_count(rt: &impl Env) -> usize {
    for place in 0..usize::MAX {
        if !has_word(rt, place) {
            return place;
        }
    }
    usize::MAX
}

// The system's words for an error, without its number.
fn reason(told: &str) -> &str {
    match told.split_once(" (os error ") {
        Some((words, _)) => words,
        None => told,
    }
}

// What a call of the system's failed with, at a file.
pub fn broken(path: &[u8], error: Error) {
    let told = InlineText::<128>::of(error);
    complain(path, reason(told.as_str()).as_bytes());
}

// A path as text, or a complaint.
fn named(path: &[u8]) -> Option<&str> {
    match str::from_utf8(path) {
        Ok(name) => Some(name),
        Err(_) => {
            complain(path, b"the name is not UTF-8");
            None
        }
    }
}

// A file to read, or a complaint.
pub fn open<R: Files>(rt: &R, path: &[u8]) -> Option<R::File> {
    let name = named(path)?;
    match fs::open(rt, name) {
        Ok(file) => Some(file),
        Err(e) => {
            broken(path, e);
            None
        }
    }
}

// Reads until the buffer is full, the file ends or a read fails; how many bytes of it are at the start of the buffer.
// The reader says how far it came, so that there is no index to count.
pub fn read_full(file: &mut impl Read, buf: &mut [u8]) -> usize
    ensures { IsPrefixLen result buf.new }
{
    let mut done = 0;
    while done < buf.len() {
        match file.read(&mut buf[done..]) {
            Ok(n) if n > 0 => done += n,
            _ => break,
        }
    }
    done
}

// Whether a file ends where it was read to, and closes it. If not, a complaint.
pub fn ends<F: Read + Drop>(mut file: F, path: &[u8], too_long: &[u8]) -> bool {
    let mut more = [0u8; 1];
    match file.read(&mut more) {
        Ok(0) => true,
        Ok(_) => {
            complain(path, too_long);
            false
        }
        Err(e) => {
            broken(path, e);
            false
        }
    }
}

// A path is at most so long that the name beside it fits a buffer.
const LONGEST: usize = 4092;

// A path with room behind it for the end of a name.
fn begun(path: &[u8]) -> [u8; 4096]
    ensures { 4096 ≡ length result }
{
    let mut name = io::buffer();
    if path.len() <= LONGEST {
        copying::copy(path, &mut name);
    }
    name
}

// The name of the file beside a path of n bytes: `.new` behind it.
fn beside(mut name: [u8; 4096], n: usize) -> [u8; 4096] {
    if n <= LONGEST {
        name[n] = b'.';
        name[n + 1] = b'n';
        name[n + 2] = b'e';
        name[n + 3] = b'w';
    }
    name
}

fn longer(n: usize) -> usize
    ensures { result ≤ 4096 }
{
    if n <= LONGEST {
        return n + 4;
    }
    0
}

// Why a new file was not made.
fn unmade(path: &[u8], name: &[u8], error: Error) {
    if error.kind() == ErrorKind::AlreadyExists {
        complain(
            name,
            b"is there already: another run writes it, or one was cut short; remove it and run again",
        );
        return;
    }
    broken(path, error);
}

// A new file of that name, or a complaint.
fn make<R: Files>(rt: &R, path: &[u8], name: &str) -> Option<R::File> {
    match OpenOptions::new()
        .write(true)
        .create_new(true)
        .open(rt, name)
    {
        Ok(file) => Some(file),
        Err(e) => {
            unmade(path, name.as_bytes(), e);
            None
        }
    }
}

// All bytes to a file, down to its device.
fn write_down(file: &mut (impl Write + OpenFile), bytes: &[u8]) -> std::io::Result<()> {
    file.write_all(bytes)?;
    file.sync_all()
}

// The same, or a complaint; and the file is closed.
fn fill<F: Write + OpenFile + Drop>(mut file: F, path: &[u8], bytes: &[u8]) -> bool {
    match write_down(&mut file, bytes) {
        Ok(()) => true,
        Err(e) => {
            broken(path, e);
            false
        }
    }
}

// Gives a file another name, or a complaint.
fn rename(rt: &impl Files, name: &str, path: &str) -> bool {
    match fs::rename(rt, name, path) {
        Ok(()) => true,
        Err(e) => {
            broken(path.as_bytes(), e);
            false
        }
    }
}

// Writes the file beside, and gives it the name; if that fails the file beside goes, and the one of that name stays.
fn put(rt: &impl Files, path: &str, name: &str, bytes: &[u8]) -> bool {
    let Some(file) = make(rt, path.as_bytes(), name) else {
        return false;
    };
    if fill(file, path.as_bytes(), bytes) && rename(rt, name, path) {
        return true;
    }
    let _ = fs::remove_file(rt, name);
    false
}

// Puts a whole file in the place of a name, or a complaint: whoever reads it sees what was there or all of this, never a part.
pub fn replace(rt: &impl Files, path: &[u8], bytes: &[u8]) -> bool {
    let n = longer(path.len());
    if n == 0 {
        complain(path, b"the name is too long");
        return false;
    }
    let start = begun(path);
    let name = beside(start, path.len());
    let Some(to) = named(path) else {
        return false;
    };
    match named(&name[..n]) {
        Some(new) => put(rt, to, new, bytes),
        None => false,
    }
}
