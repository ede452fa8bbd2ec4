// The rows of the tables that keep theirs in one array: accounts and invoices, each under its id.
ghost use Rattle.std.specs.Prelude.{ℕ};
ghost use Rattle.codec.specs.Codec.{Codec};
ghost use Rattle.codec.specs.Cursors.{Takes};
ghost use Rattle.codec.specs.Puts.{Puts};
ghost use Rattle.snapshot.specs.Layout.{account, invoice};

use crate::reading::{self, Read};
use crate::writing;
use account::Account;
use codec::Cursor;
use invoice::Invoice;
use sheet::Pen;

// A row as a snapshot has it.
pub(crate) trait Row: Copy {
    ghost fields: { Codec (ℕ × Self) };

    fn read(s: &[u8], c: Cursor) -> Read<(u64, Self)>
        ensures { Takes s.now c fields result.c (result.row.0, result.row.1) };

    fn put(self, out: &mut [u8], pen: Pen, ink: bool, id: u64) -> Pen
        ensures { Puts ink fields (id, self) out.old pen out.new result };
}

impl Row for Account {
    ghost fields = { account };

    fn read(s: &[u8], c: Cursor) -> Read<(u64, Account)> {
        reading::read_account(s, c)
    }

    fn put(self, out: &mut [u8], pen: Pen, ink: bool, id: u64) -> Pen {
        writing::put_account(out, pen, ink, id, self)
    }
}

impl Row for Invoice {
    ghost fields = { invoice };

    fn read(s: &[u8], c: Cursor) -> Read<(u64, Invoice)> {
        reading::read_invoice(s, c)
    }

    fn put(self, out: &mut [u8], pen: Pen, ink: bool, id: u64) -> Pen {
        writing::put_invoice(out, pen, ink, id, self)
    }
}
