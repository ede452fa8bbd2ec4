// Answers as lines of numbers, each written by a pen that may have no ink.
ghost use Rattle.std.specs.Prelude.{◌∷◌};
ghost use Rattle.sheet.specs.Sheet.{Wrote};
ghost use Rattle.lists.specs.Listing.{offers_of, in_order};
ghost use Rattle.asking.specs.Answers.{row_of, reply_line, reply_in, round_line, round_lines, offer_lines};

use lists::{OfferNumbers, OfferRows, Wanted};
use negotiation::{Negotiation, Round};
use sheet::Pen;

// Numbers in a line, a space between them.
pub(crate) fn put_row(out: &mut [u8], pen: Pen, ink: bool, first: u64, rest: &[u64]) -> Pen
    ensures { Wrote ink (row_of (first ∷ rest.now)) out.old pen out.new result }
{
    let p = sheet::put_decimal(out, pen, ink, first);
    sheet::put_numbers(out, p, ink, rest)
}

fn put_offer(out: &mut [u8], pen: Pen, ink: bool, o: OfferNumbers) -> Pen
    ensures { Wrote ink (row_of (in_order o)) out.old pen out.new result }
{
    let rest = [
        o.invoice, o.lender, o.amount, o.rate, o.duration, o.expires, o.status, o.funded, o.repaid,
    ];
    put_row(out, pen, ink, o.id, &rest)
}

// A line for each offer that is asked for.
pub(crate) fn put_offers(out: &mut [u8], pen: Pen, ink: bool, rows: OfferRows, w: Wanted) -> Pen
    ensures { Wrote ink (offer_lines w (offers_of rows)) out.old pen out.new result }
{
    let mut p = pen;
    for i in 0..rows.in_use() {
        let row = rows.rows[i];
        if w.takes(i as u64, row) {
            p = put_offer(out, p, ink, OfferNumbers::of(rows.ids[i], row));
        }
    }
    p
}

fn put_round(out: &mut [u8], pen: Pen, ink: bool, r: Round) -> Pen
    ensures { Wrote ink (round_line r) out.old pen out.new result }
{
    let amount = money::bits(r.amount);
    let rest = [amount, r.rate as u64, r.duration, r.time];
    put_row(out, pen, ink, r.party as u64, &rest)
}

// A line for each round.
pub(crate) fn put_rounds(out: &mut [u8], pen: Pen, ink: bool, g: Negotiation) -> Pen
    ensures { Wrote ink (round_lines g) out.old pen out.new result }
{
    let mut p = pen;
    for i in 0..g.len.min(negotiation::ROUND_SLOTS) {
        p = put_round(out, p, ink, g.rounds[i as usize]);
    }
    p
}

// The reply that stands in twelve words.
pub(crate) fn put_reply(out: &mut [u8], pen: Pen, ink: bool, words: [u64; 12]) -> Pen
    ensures { Wrote ink (reply_line (reply_in words)) out.old pen out.new result }
{
    let end = 2 + words[1].min(10) as usize;
    put_row(out, pen, ink, words[0], &words[2..end])
}
