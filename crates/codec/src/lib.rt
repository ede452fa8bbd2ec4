// Fields of one number, read by a cursor and written by a pen.
#![tactic(auto)]

ghost use Rattle.std.specs.Prelude.{◌≡◌, ℕ, true};
ghost use Rattle.codec.specs.Cursor.{cursor};
ghost use Rattle.codec.specs.Cursors.{Next, Count};
ghost use Rattle.codec.specs.Columns.{whole, half, signed, flag};
ghost use Rattle.codec.specs.Codec.{Codec};
ghost use Rattle.codec.specs.Puts.{Puts, Held};

use sheet::Pen;

// The largest number of a column, by the type that a book holds it in.
pub const WHOLE: u64 = 18446744073709551615;

pub const HALF: u64 = 4294967295;

pub const FLAG: u64 = 1;

// The refusal's number or 0, the place, whether every number so far fitted its column's type, and the last number.
#[derive(Clone, Copy)]
pub struct Cursor {
    pub code: u64,
    pub at: usize,
    pub ok: bool,
    pub x: u64,
}

impl Cursor {
    // A cursor at the first field.
    pub fn start() -> Cursor
        ensures { result ≡ cursor 0 0 true 0 }
    {
        Cursor {
            code: 0,
            at: 0,
            ok: true,
            x: 0,
        }
    }
}

// The next field's number, which is at most `top`.
pub fn next(s: &[u8], c: Cursor, tag: u8, top: u64) -> Cursor
    ensures { Next s.now c tag top result }
{
    if c.code != 0 {
        return Cursor { x: 0, ..c };
    }
    if !wire::begins(s, c.at, tag, 8) {
        return Cursor {
            code: refusal::JOURNAL_MALFORMED,
            x: 0,
            ..c
        };
    }
    let x = wire::number(s, c.at + 3);
    let at = c.at + 11;
    if top < x {
        return Cursor {
            at,
            ok: false,
            x: 0,
            ..c
        };
    }
    Cursor { at, x, ..c }
}

// The number of a table's rows; past the limit the cursor refuses at once.
pub fn count(s: &[u8], c: Cursor, tag: u8, most: u64) -> Cursor
    ensures { Count s.now c tag most result }
{
    let k = next(s, c, tag, WHOLE);
    if most < k.x {
        return Cursor {
            code: refusal::BOOK_UNSOUND,
            at: 0,
            ok: c.ok,
            x: 0,
        };
    }
    k
}

/// What a column holds, by the type that a book holds it in.
pub trait Column: Copy {
    ghost column: { ℕ → Codec Self };

    /// The number that its field has.
    fn word(self) -> u64
        ensures { Held column self result };
}

impl Column for u64 {
    ghost column = { whole };

    fn word(self) -> u64 {
        self
    }
}

impl Column for u32 {
    ghost column = { half };

    fn word(self) -> u64 {
        self.into()
    }
}

/// A signed number, by its two's complement.
impl Column for i64 {
    ghost column = { signed };

    fn word(self) -> u64 {
        money::bits(self)
    }
}

/// A flag: 1 or 0.
impl Column for bool {
    ghost column = { flag };

    fn word(self) -> u64 {
        u64::from(self)
    }
}

/// A field of a value's number.
pub fn put<V: Column>(out: &mut [u8], pen: Pen, ink: bool, tag: u8, v: V) -> Pen
    ensures { Puts ink (V.column tag) v out.old pen out.new result }
{
    let w = wire::field(tag, v.word());
    sheet::put(out, pen, ink, &w)
}
