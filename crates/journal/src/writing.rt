// From a command to the bytes of its record.
ghost use Rattle.std.specs.Prelude.{◌≡◌, ◌+◌, ◌*◌, ◌≤◌, length};
ghost use Rattle.refusal.specs.Choice.{pick};
ghost use Rattle.refusal.specs.Placed.{placed};
ghost use Rattle.journal.specs.Table.{padded, sent, parts_of};
ghost use Rattle.journal.specs.Format.{fields_out};

use command::Command;
use money::bits;

// Numbers in an array of nine, with zeros after them.
fn padded(numbers: &[u64]) -> [u64; 9]
    requires { length numbers.now ≤ 9 }
    ensures { result ≡ padded numbers.now }
{
    let mut all = [0; 9];
    all[..numbers.len()].copy_from_slice(numbers);
    all
}

// The number of a field that only some editions' records have, or the 0 that follows a record's numbers.
#[tactic(auto, unfolding(refusal::specs::Choice::pick))]
fn also(has: bool, x: u64) -> u64
    ensures { result ≡ pick has x 0 }
{
    if has { x } else { 0 }
}

// A command's tag and the numbers of its fields in order, in an edition, with zeros after them.
// An array of nine, the longest record, with zeros behind: no heap.
#[tactic(auto, unfolding(crate::specs::Table::parts_of, crate::specs::Table::parts_in, crate::specs::Table::padded))]
pub fn split(edition: u32, c: Command) -> (u8, [u64; 9])
    ensures { result ≡ sent (parts_of edition c) }
{
    match c {
        Command::OpenAccount { now, caller } => (0x21, padded(&[now, caller])),
        Command::Deposit {
            now,
            caller,
            amount,
        } => (0x22, padded(&[now, caller, bits(amount)])),
        Command::Payout {
            now,
            caller,
            amount,
        } => (0x23, padded(&[now, caller, bits(amount)])),
        Command::Approve {
            now,
            caller,
            amount,
        } => (0x24, padded(&[now, caller, bits(amount)])),
        Command::RegisterInvoice {
            now,
            caller,
            id,
            amount,
        } => (0x25, padded(&[now, caller, id, bits(amount)])),
        Command::CancelInvoice { now, caller, id } => (0x26, padded(&[now, caller, id])),
        Command::CreateOffer {
            now,
            caller,
            id,
            invoice,
            terms,
            expires,
        } => (
            0x31,
            padded(&[
                now,
                caller,
                id,
                invoice,
                bits(terms.amount),
                u64::from(terms.rate),
                terms.duration,
                expires,
            ]),
        ),
        Command::WithdrawOffer { now, caller, id } => (0x32, padded(&[now, caller, id])),
        Command::AcceptOffer { now, caller, id } => (0x33, padded(&[now, caller, id])),
        Command::RejectOffer { now, caller, id } => (0x34, padded(&[now, caller, id])),
        Command::AmendOffer {
            now,
            caller,
            id,
            terms,
            round,
        } => (
            0x35,
            padded(&[
                now,
                caller,
                id,
                bits(terms.amount),
                u64::from(terms.rate),
                terms.duration,
                u64::from(round),
            ]),
        ),
        Command::CounterOffer {
            now,
            caller,
            id,
            terms,
            round,
        } => (
            0x36,
            padded(&[
                now,
                caller,
                id,
                bits(terms.amount),
                u64::from(terms.rate),
                terms.duration,
                u64::from(round),
            ]),
        ),
        Command::CloseNegotiation { now, caller, id } => (0x37, padded(&[now, caller, id])),
        Command::ScheduleRepayment {
            now,
            caller,
            id,
            count,
            code,
            first,
            kind,
        } => (
            0x38,
            padded(&[
                now,
                caller,
                id,
                u64::from(count),
                u64::from(code),
                first,
                also(edition::keeps_terms(edition), kind),
            ]),
        ),
        Command::UpdateStatus {
            now,
            caller,
            id,
            code,
        } => (0x41, padded(&[now, caller, id, u64::from(code)])),
        Command::UpdateRepaid {
            now,
            caller,
            id,
            amount,
        } => (0x42, padded(&[now, caller, id, bits(amount)])),
        Command::UpdateLenderRepaid {
            now,
            caller,
            id,
            code,
        } => (0x43, padded(&[now, caller, id, u64::from(code)])),
        Command::UpdateTotalsRepaid {
            now,
            caller,
            amount,
            fee,
        } => (0x44, padded(&[now, caller, bits(amount), bits(fee)])),
        Command::Pause { now, seats } => (0x51, padded(&[now, seats])),
        Command::Unpause { now, seats } => (0x52, padded(&[now, seats])),
        Command::SetWindow { now, seats, window } => (0x53, padded(&[now, seats, window])),
        Command::SetRepaymentAccount { now, id, seats } => (0x54, padded(&[now, id, seats])),
        Command::SetBlacklisted {
            now,
            id,
            code,
            seats,
        } => (0x55, padded(&[now, id, u64::from(code), seats])),
        Command::SetSeats {
            now,
            seats,
            threshold,
            next,
        } => (0x56, padded(&[now, seats, u64::from(threshold), next])),
    }
}

// The fields one after the other from p on.
pub(crate) fn put_fields(out: &mut [u8], p: usize, tags: &[u8], values: [u64; 9])
    requires { (length tags.now ≤ 9) × (p + 11 * length tags.now ≤ length out.old) }
    ensures { out.new ≡ placed p (fields_out tags.now values) out.old }
{
    for (i, tag) in tags.iter().enumerate() {
        wire::put_field(out, p + 11 * i, *tag, values[i]);
    }
}
