// The 24 commands of document 01's journal, each with its fields in the order of their tags. What an edition's records lack is read as 0.
#![tactic(auto)]

ghost use Rattle.std.specs.Prelude.{◌≡◌, None, Some};
ghost use Rattle.command.specs.declared.Other.TheVariants as Others;
ghost use Rattle.command.specs.declared.Paper.TheVariants as Papers;
ghost use Rattle.command.specs.Names.{called, uncalled, names_of, paper_key, other_key};

use terms::Terms;

#[derive(Clone, Copy)]
pub enum Command {
    OpenAccount {
        now: u64,
        caller: u64,
    },
    Deposit {
        now: u64,
        caller: u64,
        amount: i64,
    },
    Payout {
        now: u64,
        caller: u64,
        amount: i64,
    },
    Approve {
        now: u64,
        caller: u64,
        amount: i64,
    },
    RegisterInvoice {
        now: u64,
        caller: u64,
        id: u64,
        amount: i64,
    },
    CancelInvoice {
        now: u64,
        caller: u64,
        id: u64,
    },
    CreateOffer {
        now: u64,
        caller: u64,
        id: u64,
        invoice: u64,
        terms: Terms,
        expires: u64,
    },
    WithdrawOffer {
        now: u64,
        caller: u64,
        id: u64,
    },
    AcceptOffer {
        now: u64,
        caller: u64,
        id: u64,
    },
    RejectOffer {
        now: u64,
        caller: u64,
        id: u64,
    },
    AmendOffer {
        now: u64,
        caller: u64,
        id: u64,
        terms: Terms,
        round: u32,
    },
    CounterOffer {
        now: u64,
        caller: u64,
        id: u64,
        terms: Terms,
        round: u32,
    },
    CloseNegotiation {
        now: u64,
        caller: u64,
        id: u64,
    },
    ScheduleRepayment {
        now: u64,
        caller: u64,
        id: u64,
        count: u32,
        code: u32,
        first: u64,
        kind: u64,
    },
    UpdateStatus {
        now: u64,
        caller: u64,
        id: u64,
        code: u32,
    },
    UpdateRepaid {
        now: u64,
        caller: u64,
        id: u64,
        amount: i64,
    },
    UpdateLenderRepaid {
        now: u64,
        caller: u64,
        id: u64,
        code: u32,
    },
    UpdateTotalsRepaid {
        now: u64,
        caller: u64,
        amount: i64,
        fee: i64,
    },
    Pause {
        now: u64,
        seats: u64,
    },
    Unpause {
        now: u64,
        seats: u64,
    },
    SetWindow {
        now: u64,
        seats: u64,
        window: u64,
    },
    SetRepaymentAccount {
        now: u64,
        id: u64,
        seats: u64,
    },
    SetBlacklisted {
        now: u64,
        id: u64,
        code: u32,
        seats: u64,
    },
    SetSeats {
        now: u64,
        seats: u64,
        threshold: u32,
        next: u64,
    },
}

// The invoice that a command sees: one that it names, or its offer's.
#[derive(Clone, Copy)]
pub enum Paper {
    Nothing,
    Id(u64),
    OfOffer,
}

// The account that a command sees beside the first: one that it names, or a party of its offer.
#[derive(Clone, Copy)]
pub enum Other {
    Nobody,
    Account(u64),
    Lender,
    Originator,
}

// What a command names. `called`: the first account is its caller's, and must be there. `pausable`: a paused book stops it. The
// others are the rows that it sees.
#[derive(Clone, Copy)]
pub struct Names {
    pub called: bool,
    pub pausable: bool,
    pub first: Option<u64>,
    pub second: Other,
    pub paper: Paper,
    pub offer: Option<u64>,
}

// By a caller, whose account must be there, and not while the book is paused.
fn called(caller: u64, second: Other, paper: Paper, offer: Option<u64>) -> Names
    ensures { result ≡ called caller second paper offer }
{
    Names {
        called: true,
        pausable: true,
        first: Some(caller),
        second,
        paper,
        offer,
    }
}

// By nobody whose account must be there.
fn uncalled(pausable: bool, first: Option<u64>) -> Names
    ensures { result ≡ uncalled pausable first }
{
    Names {
        called: false,
        pausable,
        first,
        second: Other::Nobody,
        paper: Paper::Nothing,
        offer: None,
    }
}

// By a caller who sees no other row than his account.
fn alone(caller: u64) -> Names
    ensures { result ≡ called caller Others.Nobody Papers.Nothing None }
{
    called(caller, Other::Nobody, Paper::Nothing, None)
}

// By a caller who sees the invoice that he names.
fn on_invoice(caller: u64, id: u64) -> Names
    ensures { result ≡ called caller Others.Nobody (Papers.Id id) None }
{
    called(caller, Other::Nobody, Paper::Id(id), None)
}

// By a caller who sees the offer that he names, its invoice, and one of its parties or nobody.
fn on_offer(caller: u64, second: Other, id: u64) -> Names
    ensures { result ≡ called caller second Papers.OfOffer (Some id) }
{
    called(caller, second, Paper::OfOffer, Some(id))
}

impl Paper {
    // The key of the invoice, where the command's offer is on the invoice `invoice`.
    pub fn key(self, invoice: u64) -> Option<u64>
        ensures { result ≡ paper_key self invoice }
    {
        match self {
            Paper::Nothing => None,
            Paper::Id(i) => Some(i),
            Paper::OfOffer => Some(invoice),
        }
    }
}

impl Other {
    // The key of the account, where the command's offer has these parties.
    pub fn key(self, lender: u64, originator: u64) -> Option<u64>
        ensures { result ≡ other_key self lender originator }
    {
        match self {
            Other::Nobody => None,
            Other::Account(a) => Some(a),
            Other::Lender => Some(lender),
            Other::Originator => Some(originator),
        }
    }
}

impl Command {
    // What the command names, whatever the book holds.
    #[tactic(auto, unfolding(crate::specs::Shape::shape_of, crate::specs::Names::names_for, crate::specs::Names::account_names, crate::specs::Names::offer_names, crate::specs::Names::settings_names))]
    pub fn names(self) -> Names
        ensures { result ≡ names_of self }
    {
        match self {
            Command::OpenAccount { caller, .. } => uncalled(true, Some(caller)),
            Command::Deposit { caller, .. }
            | Command::Payout { caller, .. }
            | Command::Approve { caller, .. }
            | Command::UpdateTotalsRepaid { caller, .. } => alone(caller),
            Command::RegisterInvoice { caller, id, .. }
            | Command::CancelInvoice { caller, id, .. } => on_invoice(caller, id),
            Command::CreateOffer {
                caller,
                id,
                invoice,
                ..
            } => called(caller, Other::Nobody, Paper::Id(invoice), Some(id)),
            Command::WithdrawOffer { caller, id, .. }
            | Command::RejectOffer { caller, id, .. }
            | Command::CloseNegotiation { caller, id, .. }
            | Command::ScheduleRepayment { caller, id, .. }
            | Command::UpdateStatus { caller, id, .. }
            | Command::UpdateRepaid { caller, id, .. } => on_offer(caller, Other::Nobody, id),
            Command::AcceptOffer { caller, id, .. } | Command::CounterOffer { caller, id, .. } =>
                on_offer(caller, Other::Lender, id),
            Command::AmendOffer { caller, id, .. } => on_offer(caller, Other::Originator, id),
            Command::UpdateLenderRepaid { caller, id, .. } => called(
                caller,
                Other::Account(id),
                Paper::Nothing,
                None,
            ),
            Command::Pause { .. } | Command::Unpause { .. } => uncalled(false, None),
            Command::SetWindow { .. } | Command::SetSeats { .. } => uncalled(true, None),
            Command::SetRepaymentAccount { id, .. } | Command::SetBlacklisted { id, .. } =>
                uncalled(true, Some(id)),
        }
    }
}
