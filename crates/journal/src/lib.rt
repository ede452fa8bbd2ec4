// The journal: each command is a field that holds the fields that the table lists for its tag.
#![tactic(auto)]

mod reading;
pub mod tables;
pub mod writing;

ghost use Rattle.std.specs.Prelude.{◌≡◌};
ghost use Rattle.refusal.specs.Placed.{laid};
ghost use Rattle.journal.specs.Answers.{opening, reading, written};
ghost use Rattle.journal.specs.Format.{header_of, opening_of, read_at, record_of, bytes_for, writing};

use command::Command;
use refusal::Refusal;

// The edition of a journal and the place of its first record.
#[derive(Clone, Copy, Debug, PartialEq, Eq)]
pub struct Opened {
    pub edition: u32,
    pub first: usize,
}

// What stands at a place: a command and the place past it, a malformed record and its place, or nothing.
// Three answers that a walk tells apart: an Option of a Result is no plainer.
#[derive(Clone, Copy)]
pub enum Decoded {
    Command(Command, usize),
    Malformed(usize),
    End,
}

// What stands at a place of a journal of an edition. The bytes are read where they are.
pub fn decode(edition: u32, s: &[u8], at: usize) -> Decoded
    ensures { reading result ≡ read_at edition s.now at }
{
    if s.len() <= at {
        return Decoded::End;
    }
    let tag = s[at];
    let tags = tables::fields(edition, tag);
    let size = 11 * tags.len();
    if !wire::begins(s, at, tag, size) {
        return Decoded::Malformed(at);
    }
    let Some(numbers) = reading::gather(s, at + 3, tags) else {
        return Decoded::Malformed(at);
    };
    reading::build(edition, tag, reading::named(numbers), at, at + (3 + size))
}

// The edition of a journal that begins with a header, or the place of a fault in it.
pub fn header(s: &[u8]) -> Result<Opened, usize>
    ensures { opening result ≡ opening_of s.now }
{
    if !wire::begins(s, 0, 0x10, 2) {
        return Err(0);
    }
    let edition = wire::pair(s, 3) as u32;
    if !edition::is_listed(edition) {
        return Err(0);
    }
    Ok(Opened { edition, first: 5 })
}

// Writes a command of an edition into a lent buffer from a place on, and says how many bytes it is.
pub fn encode(edition: u32, c: Command, out: &mut [u8], at: usize) -> Result<usize, Refusal>
    ensures { (written result ≡ writing at (bytes_for edition c) out.old) × (out.new ≡ laid at (bytes_for edition c) out.old) }
{
    let (tag, values) = writing::split(edition, c);
    encode_parts(edition, tag, values, out, at)
}

// Writes the record of a tag and the numbers of its fields in order, likewise.
pub fn encode_parts(
    edition: u32,
    tag: u8,
    values: [u64; 9],
    out: &mut [u8],
    at: usize,
) -> Result<usize, Refusal>
    ensures { (written result ≡ writing at (record_of edition tag values) out.old) × (out.new ≡ laid at (record_of edition tag values) out.old) }
{
    let tags = tables::fields(edition, tag);
    let size = 3 + 11 * tags.len();
    if out.len() < at {
        return Err(Refusal::BufferShort);
    }
    if out.len() - at < size {
        return Err(Refusal::BufferShort);
    }
    wire::put_head(out, at, tag, (11 * tags.len()) as u64);
    writing::put_fields(out, at + 3, tags, values);
    Ok(size)
}

// Writes the header of an edition at the start of a lent buffer: its field holds the edition's low 16 bits.
pub fn write_header(out: &mut [u8], edition: u32) -> Result<usize, Refusal>
    ensures { (written result ≡ writing 0 (header_of edition) out.old) × (out.new ≡ laid 0 (header_of edition) out.old) }
{
    if out.len() < 5 {
        return Err(Refusal::BufferShort);
    }
    let [.., high, low] = edition.to_be_bytes();
    copying::copy(&[0x10, 0, 2, high, low], out);
    Ok(5)
}
