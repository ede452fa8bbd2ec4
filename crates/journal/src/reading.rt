// From the bytes of a record to its command.
ghost use Rattle.std.specs.Prelude.{◌≡◌, ℕ, ◌+◌, ◌*◌, ◌≤◌, ◌<◌, length, get_or, drop};
ghost use Rattle.journal.specs.Answers.{reading};
ghost use Rattle.journal.specs.Table.{top_of, named, made};
ghost use Rattle.journal.specs.Format.{gathered_in};

use crate::{Decoded, tables};
use command::Command;
use money::of_bits;
use terms::Terms;

// The numbers of the fields, each at the place of its tag, where the fields stand there.
pub(crate) fn gather(s: &[u8], p: usize, tags: &[u8]) -> Option<[u64; 32]>
    requires { (p + 11 * length tags.now ≤ length s.now) × ((k : ℕ) → get_or tags.now k 0 < 32) }
    ensures { result ≡ gathered_in tags.now (drop p s.now) }
{
    let mut v = [0; 32];
    for (i, tag) in tags.iter().enumerate() {
        let q = p + 11 * i;
        // Of a field's own bytes, no test looks how many there are.
        let field = &s[q..q + 11];
        if !wire::begins(field, 0, *tag, 8) {
            return None;
        }
        let x = wire::number(field, 3);
        if tables::top(*tag) < x {
            return None;
        }
        v[usize::from(*tag)] = x;
    }
    Some(v)
}

// The numbers of a record by the names of their fields; 0 for a field that the record has not.
#[derive(Clone, Copy)]
pub(crate) struct Values {
    pub(crate) now: u64,
    pub(crate) caller: u64,
    pub(crate) id: u64,
    pub(crate) invoice: u64,
    pub(crate) amount: i64,
    pub(crate) rate: u32,
    pub(crate) duration: u64,
    pub(crate) expires: u64,
    pub(crate) round: u32,
    pub(crate) count: u32,
    pub(crate) code: u32,
    pub(crate) first: u64,
    pub(crate) seats: u64,
    pub(crate) threshold: u32,
    pub(crate) fee: i64,
    pub(crate) window: u64,
    pub(crate) next: u64,
    pub(crate) kind: u64,
}

// The names, and the types, of the fields.
pub(crate) fn named(v: [u64; 32]) -> Values
    requires { (k : ℕ) → get_or v k 0 ≤ top_of k }
    ensures { result ≡ named v }
{
    Values {
        now: v[0x01],
        caller: v[0x02],
        id: v[0x03],
        invoice: v[0x04],
        amount: of_bits(v[0x05]),
        rate: v[0x06] as u32,
        duration: v[0x07],
        expires: v[0x08],
        round: v[0x09] as u32,
        count: v[0x0a] as u32,
        code: v[0x0b] as u32,
        first: v[0x0c],
        seats: v[0x0d],
        threshold: v[0x0e] as u32,
        fee: of_bits(v[0x0f]),
        window: v[0x11],
        next: v[0x12],
        kind: v[0x14],
    }
}

// The command of a tag and its fields in an edition.
#[tactic(auto, unfolding(crate::specs::Table::made, crate::specs::Table::made_in, refusal::specs::Choice::pick))]
pub(crate) fn build(edition: u32, tag: u8, f: Values, at: usize, past: usize) -> Decoded
    ensures { reading result ≡ made edition tag f at past }
{
    let Values {
        now,
        caller,
        id,
        invoice,
        amount,
        rate,
        duration,
        expires,
        round,
        count,
        code,
        first,
        seats,
        threshold,
        fee,
        window,
        next,
        kind,
    } = f;
    let terms = Terms {
        amount,
        rate,
        duration,
    };
    match tag {
        0x21 => Decoded::Command(Command::OpenAccount { now, caller }, past),
        0x22 => Decoded::Command(
            Command::Deposit {
                now,
                caller,
                amount,
            },
            past,
        ),
        0x23 => Decoded::Command(
            Command::Payout {
                now,
                caller,
                amount,
            },
            past,
        ),
        0x24 => Decoded::Command(
            Command::Approve {
                now,
                caller,
                amount,
            },
            past,
        ),
        0x25 => Decoded::Command(
            Command::RegisterInvoice {
                now,
                caller,
                id,
                amount,
            },
            past,
        ),
        0x26 => Decoded::Command(Command::CancelInvoice { now, caller, id }, past),
        0x31 => Decoded::Command(
            Command::CreateOffer {
                now,
                caller,
                id,
                invoice,
                terms,
                expires,
            },
            past,
        ),
        0x32 => Decoded::Command(Command::WithdrawOffer { now, caller, id }, past),
        0x33 => Decoded::Command(Command::AcceptOffer { now, caller, id }, past),
        0x34 => Decoded::Command(Command::RejectOffer { now, caller, id }, past),
        0x35 => Decoded::Command(
            Command::AmendOffer {
                now,
                caller,
                id,
                terms,
                round,
            },
            past,
        ),
        0x36 => Decoded::Command(
            Command::CounterOffer {
                now,
                caller,
                id,
                terms,
                round,
            },
            past,
        ),
        0x37 => Decoded::Command(Command::CloseNegotiation { now, caller, id }, past),
        0x38 => Decoded::Command(
            Command::ScheduleRepayment {
                now,
                caller,
                id,
                count,
                code,
                first,
                kind,
            },
            past,
        ),
        0x41 => Decoded::Command(
            Command::UpdateStatus {
                now,
                caller,
                id,
                code,
            },
            past,
        ),
        0x42 => Decoded::Command(
            Command::UpdateRepaid {
                now,
                caller,
                id,
                amount,
            },
            past,
        ),
        0x43 => Decoded::Command(
            Command::UpdateLenderRepaid {
                now,
                caller,
                id,
                code,
            },
            past,
        ),
        0x44 => Decoded::Command(
            Command::UpdateTotalsRepaid {
                now,
                caller,
                amount,
                fee,
            },
            past,
        ),
        0x51 => Decoded::Command(Command::Pause { now, seats }, past),
        0x52 => Decoded::Command(Command::Unpause { now, seats }, past),
        0x53 => Decoded::Command(Command::SetWindow { now, seats, window }, past),
        0x54 => Decoded::Command(Command::SetRepaymentAccount { now, id, seats }, past),
        0x55 => Decoded::Command(
            Command::SetBlacklisted {
                now,
                id,
                code,
                seats,
            },
            past,
        ),
        0x56 => Decoded::Command(
            Command::SetSeats {
                now,
                seats,
                threshold,
                next,
            },
            past,
        ),
        _ => Decoded::Malformed(at),
    }
}
