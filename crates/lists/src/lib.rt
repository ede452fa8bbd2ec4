// Offers listed: which ones a list query asks for, their numbers in the buffer, and a lender's active total.
#![tactic(auto)]

ghost use Rattle.std.specs.Prelude.{◌≡◌, [], ◌+◌, ◌*◌, ◌≤◌, length};
ghost use Rattle.refusal.specs.Rule.{answered};
ghost use Rattle.refusal.specs.Placed.{placed};
ghost use Rattle.lists.specs.Wanted.{paged, wants, known, wanted_of};
ghost use Rattle.lists.specs.Listing.{offers_of, InUse, numbers_of, in_order, listing, filled, list_rule, listed_says, told};
ghost use Rattle.lists.specs.Active.{active_in, active_of, InRange};

use offer::Offer;
use refusal::Refusal;

// The offers alone, without their negotiations and schedules.
// Two columns of the stored table and its count: no heap, and a book is one block of fixed memory.
#[derive(Clone, Copy)]
pub struct OfferRows {
    pub ids: [u64; 64],
    pub rows: [Offer; 64],
    pub count: usize,
}

// An offer as ten 64-bit numbers, amounts in two's complement.
#[derive(Clone, Copy)]
pub struct OfferNumbers {
    pub id: u64,
    pub invoice: u64,
    pub lender: u64,
    pub amount: u64,
    pub rate: u64,
    pub duration: u64,
    pub expires: u64,
    pub status: u64,
    pub funded: u64,
    pub repaid: u64,
}

// Which offers are asked for. A page has an offset and a limit, both counted in offers.
#[derive(Clone, Copy)]
pub enum Wanted {
    Invoice(u64),
    Lender(u64),
    Status(u32),
    PendingOf(u64),
    All,
    Page(u64, u64),
}

impl OfferNumbers {
    // The ten numbers of an offer.
    // Not a From: an offer's row does not hold its id.
    pub fn of(id: u64, o: Offer) -> OfferNumbers
        ensures { result ≡ numbers_of id o }
    {
        OfferNumbers {
            id,
            invoice: o.invoice,
            lender: o.lender,
            amount: money::bits(o.terms.amount),
            rate: o.terms.rate as u64,
            duration: o.terms.duration,
            expires: o.expires,
            status: o.status as u64,
            funded: o.funded,
            repaid: money::bits(o.repaid),
        }
    }

    // The ten numbers in the original's field order.
    pub fn in_order(self) -> [u64; 10]
        ensures { result ≡ in_order self }
    {
        [
            self.id,
            self.invoice,
            self.lender,
            self.amount,
            self.rate,
            self.duration,
            self.expires,
            self.status,
            self.funded,
            self.repaid,
        ]
    }
}

#[tactic(auto, unfolding(crate::specs::Wanted::paged))]
fn in_page(offset: u64, limit: u64, place: u64) -> bool
    ensures { result ≡ paged offset limit place }
{
    offset <= place && place - offset < limit
}

impl Wanted {
    // Whether the offer `o`, which stands at `place` among all, is asked for.
    #[tactic(auto, unfolding(crate::specs::Wanted::wants))]
    pub fn takes(self, place: u64, o: Offer) -> bool
        ensures { result ≡ wants self place o }
    {
        match self {
            Wanted::Invoice(i) => o.invoice == i,
            Wanted::Lender(l) => o.lender == l,
            Wanted::Status(s) => o.status == s,
            Wanted::PendingOf(i) => o.invoice == i && o.status == terms::PENDING,
            Wanted::All => true,
            Wanted::Page(offset, limit) => in_page(offset, limit, place),
        }
    }

    // Whether the status that is asked for, if one is, is a listed one.
    #[tactic(auto, unfolding(crate::specs::Wanted::known))]
    pub fn is_known(self) -> bool
        ensures { result ≡ known self }
    {
        match self {
            Wanted::Status(s) => s <= terms::DEFAULTED,
            _ => true,
        }
    }

    // Which offers the number of a list asks for, if that is a listed one.
    #[tactic(auto, unfolding(crate::specs::Wanted::wanted_of, refusal::specs::Choice::pick))]
    pub fn asked(kind: u64, a: u64, b: u64) -> Option<Wanted>
        ensures { result ≡ wanted_of kind a b }
    {
        match kind {
            1 => Some(Wanted::Invoice(a)),
            2 => Some(Wanted::Lender(a)),
            3 => u32::try_from(a).ok().map(Wanted::Status),
            4 => Some(Wanted::PendingOf(a)),
            5 => Some(Wanted::All),
            6 => Some(Wanted::Page(a, b)),
            _ => None,
        }
    }
}

// Numbers over the buffer from a place on.
#[tactic(auto, unfolding(refusal::specs::Placed::placed))]
pub fn put(out: &mut [u64], at: usize, numbers: &[u64])
    requires { at + length numbers.now ≤ length out.old }
    ensures { out.new ≡ placed at numbers.now out.old }
{
    out[at..at + numbers.len()].copy_from_slice(numbers);
}

// The offer's amount where the lender's money is out: Accepted or Financed.
#[tactic(auto, unfolding(crate::specs::Active::active_in, refusal::specs::Choice::pick))]
pub fn active(o: Offer, lender: u64) -> u64
    ensures { result ≡ active_in lender o }
{
    if o.lender == lender && (o.status == terms::ACCEPTED || o.status == terms::FINANCED) {
        money::magnitude(o.terms.amount)
    } else {
        0
    }
}

impl OfferRows {
    // The number of rows in use; the arrays hold no more than they have room for.
    pub fn in_use(self) -> usize
        ensures { InUse self result }
    {
        self.count.min(table::ROOM)
    }

    // How many offers are asked for.
    pub fn count_of(self, w: Wanted) -> usize
        ensures counted { result ≡ length (listing w (offers_of self)) }
        ensures few { result ≤ 64 }
    {
        let mut n: usize = 0;
        for i in 0..self.in_use() {
            if w.takes(i as u64, self.rows[i]) {
                n += 1;
            }
        }
        n
    }

    fn write(self, w: Wanted, out: &mut [u64])
        requires { 10 * length (listing w (offers_of self)) ≤ length out.old }
        ensures { out.new ≡ filled w (offers_of self) out.old }
    {
        let mut n: usize = 0;
        for i in 0..self.in_use() {
            let row = self.rows[i];
            if w.takes(i as u64, row) {
                let numbers = OfferNumbers::of(self.ids[i], row).in_order();
                put(&mut *out, 10 * n, &numbers);
                n += 1;
            }
        }
    }

    // The offers asked for, in the order of their ids, from the start of the buffer on. A buffer that they do not fit is left as it is.
    #[tactic(auto, unfolding(refusal::specs::Rule::answered, refusal::specs::Rule::after, refusal::specs::Refusal::first, refusal::specs::Choice::pick))]
    pub fn list(self, w: Wanted, out: &mut [u64]) -> Result<usize, Refusal>
        ensures { (listed_says result, out.new) ≡ answered told ([], out.old) (list_rule w (offers_of self) out.old) }
    {
        if !w.is_known() {
            return Err(Refusal::InvalidInput);
        }
        let n = self.count_of(w);
        if out.len() < 10 * n {
            return Err(Refusal::BufferShort);
        }
        self.write(w, out);
        Ok(n)
    }

    // What a lender has in Accepted and Financed offers.
    pub fn active_total(self, lender: u64) -> u64
        requires { InRange self }
        ensures { result ≡ active_of lender (offers_of self) }
    {
        let mut sum: u64 = 0;
        for i in 0..self.in_use() {
            sum += active(self.rows[i], lender);
        }
        sum
    }
}
