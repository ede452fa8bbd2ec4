// From a command's tag and numbers to its line.
ghost use Rattle.std.specs.Prelude.{◌≡◌, ◌++◌, ◌≤◌, length};
ghost use Rattle.sheet.specs.Sheet.{Wrote};
ghost use Rattle.sheet.specs.Decimal.{space};
ghost use Rattle.text.specs.Line.{is_signed, signed_of, numeral_of, numerals_of, line_of};
ghost use Rattle.text.specs.Title.{title_of};

use crate::{fields, names, reading};
use sheet::Pen;

// Whether a field holds a two's complement.
pub(crate) fn signed(f: u8) -> bool
    ensures { result ≡ is_signed f }
{
    (f == 0x05) | (f == 0x0f)
}

fn put_signed(out: &mut [u8], pen: Pen, ink: bool, x: u64) -> Pen
    ensures { Wrote ink (signed_of x) out.old pen out.new result }
{
    if x < 9223372036854775808 {
        return sheet::put_decimal(out, pen, ink, x);
    }
    let put = sheet::put(out, pen, ink, b"-");
    sheet::put_decimal(out, put, ink, 18446744073709551615 - x + 1)
}

fn put_numeral(out: &mut [u8], pen: Pen, ink: bool, f: u8, x: u64) -> Pen
    ensures { Wrote ink (numeral_of f x) out.old pen out.new result }
{
    if signed(f) {
        return put_signed(out, pen, ink, x);
    }
    sheet::put_decimal(out, pen, ink, x)
}

fn put_spaced(out: &mut [u8], pen: Pen, ink: bool, f: u8, x: u64) -> Pen
    ensures { Wrote ink (space ++ numeral_of f x) out.old pen out.new result }
{
    let put = sheet::put(out, pen, ink, b" ");
    put_numeral(out, put, ink, f, x)
}

fn put_numerals(out: &mut [u8], pen: Pen, ink: bool, tags: &[u8], numbers: [u64; 9]) -> Pen
    requires { length tags.now ≤ 9 }
    ensures { Wrote ink (numerals_of tags.now numbers) out.old pen out.new result }
{
    let mut p = pen;
    for (i, tag) in tags.iter().enumerate() {
        p = put_spaced(out, p, ink, *tag, numbers[i]);
    }
    p
}

pub(crate) fn put_line(
    out: &mut [u8],
    pen: Pen,
    ink: bool,
    edition: u32,
    tag: u8,
    numbers: [u64; 9],
) -> Pen
    ensures { Wrote ink (line_of edition (tag, numbers)) out.old pen out.new result }
{
    let put = sheet::put(out, pen, ink, names::word(tag));
    let q = put_numerals(out, put, ink, fields::listed(edition, tag), numbers);
    sheet::put(out, q, ink, b"\n")
}

// The line that names an edition past the first.
pub(crate) fn put_title(out: &mut [u8], pen: Pen, ink: bool, edition: u32) -> Pen
    ensures { Wrote ink (title_of edition) out.old pen out.new result }
{
    let n = edition as u64;
    if !reading::is_later(n) {
        return pen;
    }
    let numbers = [n, 0, 0, 0, 0, 0, 0, 0, 0];
    put_line(out, pen, ink, edition::FIRST, 0x10, numbers)
}
