// The reader walks the caller's journal bytes where they are.
#![tactic(auto)]

ghost use Rattle.std.specs.Prelude.{◌≡◌};
ghost use Rattle.journal.specs.Answers.{reading};
ghost use Rattle.journal.specs.Format.{read_at};

use journal::Decoded;

// A journal, a place in it, and its edition.
#[derive(Clone, Copy)]
pub struct Reader<'a> {
    pub src: &'a [u8],
    pub at: usize,
    pub edition: u32,
}

// What stands at the reader's place.
pub fn step(r: Reader<'_>) -> Decoded
    ensures { reading result ≡ read_at r.entry.edition r.entry.src.now r.entry.at }
{
    journal::decode(r.edition, r.src, r.at)
}

// What stands at a place of a journal of an edition, read by a reader: for callers that hold the bytes and the place.
pub fn read(edition: u32, s: &[u8], at: usize) -> Decoded
    ensures { reading result ≡ read_at edition s.now at }
{
    step(Reader {
        src: s,
        at,
        edition,
    })
}
