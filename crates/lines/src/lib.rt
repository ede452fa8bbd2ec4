// The lines of a listing, each written by a pen that may have no ink.
#![tactic(auto)]

ghost use Rattle.std.specs.Prelude.{◌≡◌};
ghost use Rattle.sheet.specs.Sheet.{Wrote};
ghost use Rattle.table.specs.Shelf.{table_of};
ghost use Rattle.lines.specs.Lines.{edition_line, answer_line, mark_line, account_line, account_lines, totals_line};

use account::Account;
use sheet::Pen;
use totals::Totals;

// The edition of a journal's rules.
pub fn put_edition(out: &mut [u8], pen: Pen, ink: bool, edition: u64) -> Pen
    ensures { Wrote ink (edition_line edition) out.old pen out.new result }
{
    let past = sheet::put(out, pen, ink, b"edition");
    let xs = [edition];
    sheet::put_numbers(out, past, ink, &xs)
}

// A record's number and its answer.
pub fn put_answer(out: &mut [u8], pen: Pen, ink: bool, n: u64, answer: u64) -> Pen
    ensures { Wrote ink (answer_line n answer) out.old pen out.new result }
{
    let p = sheet::put_decimal(out, pen, ink, n);
    let xs = [answer];
    sheet::put_numbers(out, p, ink, &xs)
}

// A malformed record's number, and the offset of its tag.
pub fn put_mark(out: &mut [u8], pen: Pen, ink: bool, n: u64, at: u64) -> Pen
    ensures { Wrote ink (mark_line n at) out.old pen out.new result }
{
    let p = sheet::put_decimal(out, pen, ink, n);
    let xs = [refusal::JOURNAL_MALFORMED, at];
    sheet::put_numbers(out, p, ink, &xs)
}

// The listing's line of an account.
pub fn put_account(out: &mut [u8], pen: Pen, ink: bool, id: u64, row: Account) -> Pen
    ensures { Wrote ink (account_line id row) out.old pen out.new result }
{
    let past = sheet::put(out, pen, ink, b"account");
    let balance = money::magnitude(row.purse.balance);
    let allowance = money::magnitude(row.purse.allowance);
    let offered = money::magnitude(row.purse.offered);
    let accepted = money::magnitude(row.purse.accepted);
    let xs = [id, balance, allowance, offered, accepted];
    sheet::put_numbers(out, past, ink, &xs)
}

// The first n rows, or all of them.
pub fn put_accounts(
    out: &mut [u8],
    mut pen: Pen,
    ink: bool,
    ids: [u64; 64],
    rows: [Account; 64],
    n: usize,
) -> Pen
    ensures { Wrote ink (account_lines (table_of ids rows n)) out.old pen out.new result }
{
    for i in 0..n.min(64) {
        pen = put_account(out, pen, ink, ids[i], rows[i]);
    }
    pen
}

// The listing's line of the totals.
pub fn put_totals(out: &mut [u8], pen: Pen, ink: bool, totals: Totals) -> Pen
    ensures { Wrote ink (totals_line totals) out.old pen out.new result }
{
    let past = sheet::put(out, pen, ink, b"totals");
    let financed = money::magnitude(totals.financed);
    let repaid = money::magnitude(totals.repaid);
    let fees = money::magnitude(totals.fees);
    let xs = [financed, repaid, fees];
    sheet::put_numbers(out, past, ink, &xs)
}
