// The three tables of the book, each in arrays: rows are seen and stored by their keys.
#![tactic(auto)]

ghost use Rattle.std.specs.Prelude.{◌≡◌, [], take};
ghost use Rattle.table.specs.Tables.{insert, Room};
ghost use Rattle.table.specs.Named.{find_by, put_by};
ghost use Rattle.table.specs.Spots.{spot_by};
ghost use Rattle.account.specs.Seen.{seen_account};
ghost use Rattle.invoice.specs.Seen.{seen_invoice};
ghost use Rattle.offer.specs.Seen.{seen_deal};
ghost use Rattle.shelves.specs.Accounts.{accounts_of, stored_accounts, AccountShelf, accounts_test};
ghost use Rattle.shelves.specs.Invoices.{invoices_of, stored_invoices, InvoiceShelf, invoices_test};
ghost use Rattle.shelves.specs.Offers.{deals_of, stored_deals, DealShelf, deals_test, WholeDeals};
ghost use Rattle.shelves.specs.Seeing.{StoresAccounts, StoresInvoices, StoresDeals};
ghost use Rattle.shelves.specs.Sized.{Sized};

use account::{Account, SeenAccount};
use invoice::{Invoice, SeenInvoice};
use negotiation::Negotiation;
use offer::{Deal, Offer, SeenDeal};
use table::Spot;
use terms::Schedule;

#[derive(Clone, Copy)]
pub struct Accounts {
    pub ids: [u64; 64],
    pub rows: [Account; 64],
    pub count: usize,
}

impl Accounts {
    // A table with no rows.
    pub fn none() -> Accounts
        ensures { result ≡ stored_accounts [] }
    {
        Accounts {
            ids: [0; 64],
            rows: [Account::none(); 64],
            count: 0,
        }
    }

    // Whether ids ascend, rows are sound, and the places past the count are zero.
    pub fn sound(&self) -> bool
        ensures tested { result ≡ accounts_test self.now }
        ensures sized { Sized self.now.ids self.now.rows }
    {
        let mut ok = true;
        for i in 0..table::ROOM {
            // `&`: no test is skipped, so a turn is one equation.
            ok = ok & self.rows[i].fits(i < self.count);
        }
        table::ids_sound(&self.ids, self.count) & ok
    }

    // The row that a key names.
    pub fn see(&self, key: Option<u64>) -> SeenAccount
        requires { AccountShelf self.now }
        ensures { result ≡ seen_account (find_by (accounts_of self.now) key) }
    {
        self.see_at(key, table::spot_by(&self.ids, self.count, key))
    }

    // The same where the key's spot was looked up.
    pub fn see_at(&self, key: Option<u64>, spot: Spot) -> SeenAccount
        requires shelf { AccountShelf self.now }
        requires found { spot ≡ spot_by (take self.now.count self.now.ids) key }
        ensures { result ≡ seen_account (find_by (accounts_of self.now) key) }
    {
        SeenAccount::at(spot.here, self.rows[spot.at])
    }

    // The row put at its key's spot, where there is one.
    fn put(&mut self, whose: Option<u64>, spot: Spot, account: Account)
        requires shelf { AccountShelf self.old }
        requires found { spot ≡ spot_by (take self.old.count self.old.ids) whose }
        ensures stored { self.new ≡ stored_accounts (put_by (accounts_of self.old) whose account) }
        ensures ids { (self.new.ids ≡ self.old.ids) × (self.new.count ≡ self.old.count) }
    {
        if spot.here {
            self.rows[spot.at] = account;
        }
    }

    // The rows left by a turn, put back at their keys, second before first, or the first let in where it came.
    pub fn store(&mut self, first: Option<u64>, second: Option<u64>, x: SeenAccount, y: Account)
        requires { AccountShelf self.old }
        ensures { StoresAccounts self.old first second x y self.new }
    {
        let was = table::spot_by(&self.ids, self.count, first);
        let other = table::spot_by(&self.ids, self.count, second);
        self.store_at(first, was, second, other, x, y);
    }

    // The same where the spots of both keys were looked up.
    pub fn store_at(
        &mut self,
        first: Option<u64>,
        was: Spot,
        second: Option<u64>,
        other: Spot,
        x: SeenAccount,
        y: Account,
    )
        requires shelf { AccountShelf self.old }
        requires found { was ≡ spot_by (take self.old.count self.old.ids) first }
        requires second { other ≡ spot_by (take self.old.count self.old.ids) second }
        ensures { StoresAccounts self.old first second x y self.new }
    {
        self.put(second, other, y);
        self.put(first, was, x.row);
        if !was.here & x.here {
            self.let_in(table::id_of(first), x.row);
        }
    }

    // A row let in at its id's place: from there on each row in use moves up by one.
    pub fn let_in(&mut self, id: u64, account: Account)
        requires { AccountShelf self.old }
        ensures { Room 64 (accounts_of self.old) id → self.new ≡ stored_accounts (insert (accounts_of self.old) id account) }
    {
        let count = self.count;
        if table::ROOM <= count {
            return;
        }
        let Err(k) = table::find(&self.ids, count, id) else {
            return;
        };
        let mut i = count;
        while k < i {
            let j = i - 1;
            self.ids[i] = self.ids[j];
            self.rows[i] = self.rows[j];
            i = j;
        }
        self.ids[i] = id;
        self.rows[i] = account;
        self.count = count + 1;
    }
}

#[derive(Clone, Copy)]
pub struct Invoices {
    pub ids: [u64; 64],
    pub rows: [Invoice; 64],
    pub count: usize,
}

impl Invoices {
    // A table with no rows.
    pub fn none() -> Invoices
        ensures { result ≡ stored_invoices [] }
    {
        Invoices {
            ids: [0; 64],
            rows: [Invoice::none(); 64],
            count: 0,
        }
    }

    // Whether ids ascend, rows are sound, and the places past the count are zero.
    pub fn sound(&self) -> bool
        ensures tested { result ≡ invoices_test self.now }
        ensures sized { Sized self.now.ids self.now.rows }
    {
        let mut ok = true;
        for i in 0..table::ROOM {
            // `&`: no test is skipped, so a turn is one equation.
            ok = ok & self.rows[i].fits(i < self.count);
        }
        table::ids_sound(&self.ids, self.count) & ok
    }

    // The row that a key names.
    pub fn see(&self, key: Option<u64>) -> SeenInvoice
        requires { InvoiceShelf self.now }
        ensures { result ≡ seen_invoice (find_by (invoices_of self.now) key) }
    {
        self.see_at(key, table::spot_by(&self.ids, self.count, key))
    }

    // The same where the key's spot was looked up.
    pub fn see_at(&self, key: Option<u64>, spot: Spot) -> SeenInvoice
        requires shelf { InvoiceShelf self.now }
        requires found { spot ≡ spot_by (take self.now.count self.now.ids) key }
        ensures { result ≡ seen_invoice (find_by (invoices_of self.now) key) }
    {
        SeenInvoice::at(spot.here, self.rows[spot.at])
    }

    // The row put at its key's spot, where there is one.
    fn put(&mut self, key: Option<u64>, found: Spot, paper: Invoice)
        requires shelf { InvoiceShelf self.old }
        requires found { found ≡ spot_by (take self.old.count self.old.ids) key }
        ensures { self.new ≡ stored_invoices (put_by (invoices_of self.old) key paper) }
    {
        if found.here {
            self.rows[found.at] = paper;
        }
    }

    // The row left by a turn, put back at its key, or let in where it came.
    pub fn store(&mut self, key: Option<u64>, x: SeenInvoice)
        requires { InvoiceShelf self.old }
        ensures { StoresInvoices self.old key x self.new }
    {
        let was = table::spot_by(&self.ids, self.count, key);
        self.store_at(key, was, x);
    }

    // The same where the key's spot was looked up.
    pub fn store_at(&mut self, key: Option<u64>, was: Spot, paper: SeenInvoice)
        requires shelf { InvoiceShelf self.old }
        requires found { was ≡ spot_by (take self.old.count self.old.ids) key }
        ensures { StoresInvoices self.old key paper self.new }
    {
        self.put(key, was, paper.row);
        if !was.here & paper.here {
            self.let_in(table::id_of(key), paper.row);
        }
    }

    // A row let in at its id's place: from there on each row in use moves up by one.
    pub fn let_in(&mut self, id: u64, paper: Invoice)
        requires { InvoiceShelf self.old }
        ensures { Room 64 (invoices_of self.old) id → self.new ≡ stored_invoices (insert (invoices_of self.old) id paper) }
    {
        let count = self.count;
        if table::ROOM <= count {
            return;
        }
        let Err(k) = table::find(&self.ids, count, id) else {
            return;
        };
        let mut i = count;
        while k < i {
            let j = i - 1;
            self.ids[i] = self.ids[j];
            self.rows[i] = self.rows[j];
            i = j;
        }
        self.ids[i] = id;
        self.rows[i] = paper;
        self.count = count + 1;
    }
}

// An offer, its negotiation and its schedule stand at one place of the three columns.
// Columns and a count: a book is one block of fixed memory (book_bytes_lem, crates/soundness/specs/Bytes.antt), and ids are looked through alone.
#[derive(Clone, Copy)]
pub struct Offers {
    pub ids: [u64; 64],
    pub rows: [Offer; 64],
    pub negotiations: [Negotiation; 64],
    pub schedules: [Schedule; 64],
    pub count: usize,
}

impl Offers {
    // A table with no rows.
    pub fn none() -> Offers
        ensures { result ≡ stored_deals [] }
    {
        let none = Deal::none();
        Offers {
            ids: [0; 64],
            rows: [none.offer; 64],
            negotiations: [none.negotiation; 64],
            schedules: [none.schedule; 64],
            count: 0,
        }
    }

    // Whether ids ascend, rows are sound in the book's edition, and the places past the count are zero.
    pub fn sound(&self, edition: u32) -> bool
        ensures tested { result ≡ deals_test edition self.now }
        ensures whole { WholeDeals self.now }
    {
        let mut ok = true;
        for i in 0..table::ROOM {
            let deal = Deal {
                offer: self.rows[i],
                negotiation: self.negotiations[i],
                schedule: self.schedules[i],
            };
            // `&`: no test is skipped, so a turn is one equation.
            ok = ok & deal.fits(edition, i < self.count);
        }
        table::ids_sound(&self.ids, self.count) & ok
    }

    // The row that a key names.
    pub fn see(&self, key: Option<u64>) -> SeenDeal
        requires { DealShelf self.now }
        ensures { result ≡ seen_deal (find_by (deals_of self.now) key) }
    {
        self.see_at(key, table::spot_by(&self.ids, self.count, key))
    }

    // The same where the key's spot was looked up.
    pub fn see_at(&self, key: Option<u64>, spot: Spot) -> SeenDeal
        requires deals { DealShelf self.now }
        requires found { spot ≡ spot_by (take self.now.count self.now.ids) key }
        ensures { result ≡ seen_deal (find_by (deals_of self.now) key) }
    {
        let deal = Deal {
            offer: self.rows[spot.at],
            negotiation: self.negotiations[spot.at],
            schedule: self.schedules[spot.at],
        };
        SeenDeal::at(spot.here, deal)
    }

    // The row put at its key's spot, where there is one.
    fn put(&mut self, key: Option<u64>, place: Spot, deal: Deal)
        requires deals { DealShelf self.old }
        requires found { place ≡ spot_by (take self.old.count self.old.ids) key }
        ensures { self.new ≡ stored_deals (put_by (deals_of self.old) key deal) }
    {
        if place.here {
            self.rows[place.at] = deal.offer;
            self.negotiations[place.at] = deal.negotiation;
            self.schedules[place.at] = deal.schedule;
        }
    }

    // The row left by a turn, put back at its key, or let in where it came.
    pub fn store(&mut self, key: Option<u64>, x: SeenDeal)
        requires { DealShelf self.old }
        ensures { StoresDeals self.old key x self.new }
    {
        let was = table::spot_by(&self.ids, self.count, key);
        self.store_at(key, was, x);
    }

    // The same where the key's spot was looked up.
    pub fn store_at(&mut self, key: Option<u64>, was: Spot, deal: SeenDeal)
        requires deals { DealShelf self.old }
        requires found { was ≡ spot_by (take self.old.count self.old.ids) key }
        ensures { StoresDeals self.old key deal self.new }
    {
        self.put(key, was, deal.row);
        if !was.here & deal.here {
            self.let_in(table::id_of(key), deal.row);
        }
    }

    // A row let in at its id's place: from there on each row in use moves up by one.
    pub fn let_in(&mut self, id: u64, deal: Deal)
        requires { DealShelf self.old }
        ensures { Room 64 (deals_of self.old) id → self.new ≡ stored_deals (insert (deals_of self.old) id deal) }
    {
        let count = self.count;
        if table::ROOM <= count {
            return;
        }
        let Err(k) = table::find(&self.ids, count, id) else {
            return;
        };
        let mut i = count;
        while k < i {
            let j = i - 1;
            self.ids[i] = self.ids[j];
            self.rows[i] = self.rows[j];
            self.negotiations[i] = self.negotiations[j];
            self.schedules[i] = self.schedules[j];
            i = j;
        }
        self.ids[i] = id;
        self.rows[i] = deal.offer;
        self.negotiations[i] = deal.negotiation;
        self.schedules[i] = deal.schedule;
        self.count = count + 1;
    }
}
