// From a line to its tag and numbers.
ghost use Rattle.std.specs.Prelude.{◌≡◌, ◌+◌, ◌≤◌, ◌<◌, length, get_or, drop};
ghost use Rattle.text.specs.Walk.{fault};
ghost use Rattle.text.specs.Title.{is_later, untitled, title_in};
ghost use Rattle.text.specs.Reading.{is_named, tag_in, is_digit, no_numeral, checked, natural_in, numeral_in, spaced_in, read_in, line_in, numbers_for, line_for};

use crate::{fields, names, writing};

// A number and how many bytes it takes; or that none stands there.
#[derive(Clone, Copy)]
pub(crate) struct Numeral {
    pub(crate) ok: bool,
    pub(crate) value: u64,
    pub(crate) size: usize,
}

// The numbers of fields in order, and the place past them.
#[derive(Clone, Copy)]
pub(crate) struct Numbers {
    pub(crate) ok: bool,
    pub(crate) values: [u64; 9],
    pub(crate) next: usize,
}

// The tag of a line, its numbers, and the place past it; or that none stands there.
// `values`: an array of nine, the longest record, with zeros behind: no heap.
#[derive(Clone, Copy)]
pub struct Line {
    pub ok: bool,
    pub tag: u8,
    pub values: [u64; 9],
    pub next: usize,
}

fn none() -> Numeral
    ensures { result ≡ no_numeral }
{
    Numeral {
        ok: false,
        value: 0,
        size: 0,
    }
}

// The byte at a place; 0 past the end.
fn byte(s: &[u8], p: usize) -> u8
    ensures { result ≡ get_or s.now p 0 }
{
    if p < s.len() {
        return s[p];
    }
    0
}

fn named(s: &[u8], at: usize, k: u8) -> bool
    requires { at ≤ length s.now }
    ensures { result ≡ is_named k (drop at s.now) }
{
    let word = names::word(k);
    if word.is_empty() {
        return false;
    }
    s[at..].starts_with(word)
}

// The first tag from one to below another whose name stands there, or 0.
fn tag_at(s: &[u8], at: usize, first: u8, past: u8) -> u8
    requires { at ≤ length s.now }
    ensures { result ≡ tag_in first past (drop at s.now) }
{
    for k in first..past {
        if named(s, at, k) {
            return k;
        }
    }
    0
}

fn digit(b: u8) -> bool
    ensures { result ≡ is_digit b }
{
    (48 <= b) & (b <= 57)
}

// A number of n digits, of which the first is b.
fn check(top: u64, n: usize, b: u8, v: u64) -> Numeral
    ensures { result ≡ checked top n b v }
{
    let plain = (0 < n) & ((n <= 1) | (48 < b));
    if plain & (v <= top) {
        return Numeral {
            ok: true,
            value: v,
            size: n,
        };
    }
    none()
}

// The digits end where a byte is none: the loop's end is what it looks for, and its bound is tested at each digit.
fn natural(s: &[u8], at: usize, top: u64) -> Numeral
    requires { at ≤ length s.now }
    ensures { result ≡ natural_in top (drop at s.now) }
{
    let mut v: u64 = 0;
    let mut n: usize = 0;
    loop {
        let b = byte(s, at + n);
        if !digit(b) {
            return check(top, n, byte(s, at), v);
        }
        let d = (b - 48) as u64;
        if (18446744073709551615 - d) / 10 < v {
            return none();
        }
        v = v * 10 + d;
        n += 1;
    }
}

fn numeral_at(s: &[u8], at: usize, f: u8) -> Numeral
    requires { at ≤ length s.now }
    ensures { result ≡ numeral_in f (drop at s.now) }
{
    if !writing::signed(f) {
        return natural(s, at, journal::tables::top(f));
    }
    if byte(s, at) != 45 {
        return natural(s, at, 9223372036854775807);
    }
    let x = natural(s, at + 1, 9223372036854775808);
    if !(x.ok & (0 < x.value)) {
        return none();
    }
    Numeral {
        ok: true,
        value: 18446744073709551615 - x.value + 1,
        size: x.size + 1,
    }
}

// A space and a number.
fn spaced(s: &[u8], at: usize, f: u8) -> Numeral
    requires { at ≤ length s.now }
    ensures { result ≡ spaced_in f (drop at s.now) }
{
    if byte(s, at) != 32 {
        return none();
    }
    numeral_at(s, at + 1, f)
}

fn numbers_at(s: &[u8], at: usize, tags: &[u8]) -> Numbers
    requires { (at ≤ length s.now) × (length tags.now ≤ 9) }
    ensures { result ≡ numbers_for at (read_in tags.now (drop at s.now)) }
{
    let mut values = [0; 9];
    let mut next = at;
    for (i, tag) in tags.iter().enumerate() {
        let x = spaced(s, next, *tag);
        if !x.ok {
            return Numbers {
                ok: false,
                values: [0; 9],
                next: at,
            };
        }
        values[i] = x.value;
        next += x.size + 1;
    }
    Numbers {
        ok: true,
        values,
        next,
    }
}

fn no_line() -> Line
    ensures { result ≡ line_for fault }
{
    Line {
        ok: false,
        tag: 0,
        values: [0u64; 9],
        next: 0,
    }
}

// The line at a place of a text of an edition, of a tag from one to below another.
pub fn line_at(edition: u32, s: &[u8], at: usize, first: u8, past: u8) -> Line
    requires { at ≤ length s.now }
    ensures { result ≡ line_for (line_in edition first past (drop at s.now) at) }
{
    let tag = tag_at(s, at, first, past);
    if tag == 0 {
        return no_line();
    }
    let word = names::word(tag);
    let tags = fields::listed(edition, tag);
    let x = numbers_at(s, at + word.len(), tags);
    if !x.ok {
        return no_line();
    }
    if byte(s, x.next) != 10 {
        return no_line();
    }
    let values = x.values;
    Line {
        ok: true,
        tag,
        values,
        next: x.next + 1,
    }
}

// The edition of a text, how many lines name it, and the place past them.
#[derive(Clone, Copy)]
pub(crate) struct Title {
    pub(crate) edition: u32,
    pub(crate) lines: usize,
    pub(crate) next: usize,
}

// Whether a number is that of an edition past the first.
pub(crate) fn is_later(n: u64) -> bool
    ensures { result ≡ is_later n }
{
    if 65535 < n {
        return false;
    }
    let e = n as u32;
    (edition::FIRST < e) & edition::is_listed(e)
}

fn no_title() -> Title
    ensures { result ≡ untitled }
{
    Title {
        edition: edition::FIRST,
        lines: 0,
        next: 0,
    }
}

// The edition that a text's first line names, or the first.
pub(crate) fn title_of(s: &[u8]) -> Title
    ensures { result ≡ title_in s.now }
{
    let x = line_at(edition::FIRST, s, 0, 0x10, 0x11);
    if !x.ok {
        return no_title();
    }
    let values = x.values;
    let n = values[0];
    if !is_later(n) {
        return no_title();
    }
    Title {
        edition: n as u32,
        lines: 1,
        next: x.next,
    }
}
