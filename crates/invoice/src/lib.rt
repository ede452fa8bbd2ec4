// An invoice's row: who put it up, for how much, and where it stands.
#![tactic(auto)]

ghost use Rattle.std.specs.Prelude.{cond, ◌≡◌};
ghost use Rattle.refusal.specs.Rule.{outcome, passing};
ghost use Rattle.invoice.specs.Invoice.{no_invoice, invoice_of, invoice_sound, invoice_zero, financed, covers, cancel_of, register_checks};

use refusal::Refusal;
use table::{Row, Seen};
use terms::Terms;

// An invoice leaves Pending for good: as Financed by settlement, as Cancelled by its originator.
pub const PENDING: u32 = 0;

pub const FINANCED: u32 = 1;

pub const CANCELLED: u32 = 2;

/// What the book holds of one invoice. The status stays a number, as stored: `Book::apply` answers 15 on any book, listed or not.
#[derive(Clone, Copy, Debug, PartialEq, Eq)]
pub struct Invoice {
    pub originator: u64,
    pub amount: i64,
    pub status: u32,
}

impl Invoice {
    // A registered invoice, Pending.
    pub fn new(originator: u64, amount: i64) -> Invoice
        ensures { result ≡ invoice_of originator amount }
    {
        Invoice {
            originator,
            amount,
            status: PENDING,
        }
    }

    // The amount in range and a listed status.
    #[tactic(auto, unfolding(crate::specs::Invoice::invoice_sound))]
    pub fn sound(self) -> bool
        ensures { result ≡ invoice_sound self }
    {
        money::in_amount_range(self.amount) && self.status <= CANCELLED
    }

    // The row that is not in use.
    pub fn none() -> Invoice
        ensures { result ≡ no_invoice }
    {
        Invoice {
            originator: 0,
            amount: 0,
            status: PENDING,
        }
    }

    // Whether every number is 0.
    #[tactic(auto, unfolding(crate::specs::Invoice::invoice_zero))]
    pub fn zero(self) -> bool
        ensures { result ≡ invoice_zero self }
    {
        self == Invoice::none()
    }

    // Whether the row can stand at a place: sound where the place is in use, else zero.
    pub fn fits(self, used: bool) -> bool
        ensures { result ≡ cond used (invoice_sound self) (invoice_zero self) }
    {
        if used { self.sound() } else { self.zero() }
    }

    // The invoice once an offer on it is settled.
    pub fn financed(mut self) -> Invoice
        ensures { result ≡ financed self }
    {
        self.status = FINANCED;
        self
    }

    // Whether the amount of the terms is within the invoice's.
    pub fn covers(self, t: Terms) -> bool
        ensures { result ≡ covers self t }
    {
        money::at_most(t.amount, self.amount)
    }
}

impl Row for Invoice {
    ghost empty = { no_invoice };

    fn empty() -> Invoice {
        Invoice::none()
    }
}

// A row looked up: whether it is there, and the row, which is zero where it is not.
pub type SeenInvoice = Seen<Invoice>;

// The originator takes it back while it is Pending.
pub fn cancel(seen: SeenInvoice, caller: u64) -> Result<Invoice, Refusal>
    ensures { result ≡ outcome (cancel_of seen caller) }
{
    if !seen.here {
        return Err(Refusal::NotFound);
    }
    let mut row = seen.row;
    if row.originator != caller {
        return Err(Refusal::Unauthorized);
    }
    if row.status != PENDING {
        return Err(Refusal::InvalidTransition);
    }
    row.status = CANCELLED;
    Ok(row)
}

// What stands against a new invoice.
pub fn register_checks(amount: i64, exists: bool, full: bool) -> Result<(), Refusal>
    ensures { result ≡ passing (register_checks amount exists full) }
{
    if !money::in_amount_range(amount) {
        return Err(Refusal::InvalidInput);
    }
    if exists {
        return Err(Refusal::AlreadyExists);
    }
    if full {
        return Err(Refusal::NoRoom);
    }
    Ok(())
}
