// Rescue of a damaged journal: its well-formed records make a clean one, and the others are reported.
#![tactic(auto)]

ghost use Rattle.std.specs.Prelude.{◌≡◌, false, [], ◌∷◌, ◌+◌, ◌≤◌, ◌<◌, length, take, drop, Ok, Some, None};
ghost use Rattle.refusal.specs.Choice.{pick};
ghost use Rattle.refusal.specs.Placed.{placed};
ghost use Rattle.rescue.specs.Rescue.{outer, fits, stands, pieces_from, dropped_in, said, answer_for, out_for, report_for};
ghost use Rattle.rescue.specs.Swept.{Swept};

use journal::Decoded;
use refusal::Refusal;

// How many bytes the clean journal has, how many records were dropped and how many bytes are left.
#[derive(Clone, Copy, Debug, PartialEq, Eq)]
pub struct Clean {
    pub size: usize,
    pub dropped: usize,
    pub left: usize,
}

// The size of the outer field at a place; none where its length is cut or runs past the end.
fn step(s: &[u8], at: usize) -> Option<usize>
    requires { at ≤ length s.now }
    ensures { result ≡ pick (fits (drop at s.now)) (Some (outer (drop at s.now))) None }
{
    if s.len() - at < 3 {
        return None;
    }
    let size = 3 + wire::pair(s, at + 1) as usize;
    if s.len() - at < size {
        return None;
    }
    Some(size)
}

// Whether a record of the edition stands at a place.
fn stands(edition: u32, s: &[u8], at: usize) -> bool
    ensures { result ≡ stands edition s.now at }
{
    matches!(journal::decode(edition, s, at), Decoded::Command(..))
}

// How many records a rescue drops from a place on.
fn count(edition: u32, s: &[u8], first: usize) -> usize
    requires { first ≤ length s.now }
    ensures { result ≡ length (dropped_in (pieces_from edition s.now first)) }
{
    let mut at = first;
    let mut n = 0;
    while let Some(size) = step(s, at) {
        n += missing(stands(edition, s, at));
        at += size;
    }
    n
}

#[tactic(auto, unfolding(refusal::specs::Choice::pick))]
fn missing(good: bool) -> usize
    ensures { (result ≡ pick good 0 1) × (result ≤ 1) }
{
    usize::from(!good)
}

// Writes a record that is kept at a place of the clean journal, and answers the place past it.
fn keep(s: &[u8], at: usize, size: usize, good: bool, out: &mut [u8], p: usize) -> usize
    requires { (at + size ≤ length s.now) × (p + size ≤ length out.old) }
    ensures { (result ≡ p + length (pick good (take size (drop at s.now)) [])) × (out.new ≡ placed p (pick good (take size (drop at s.now)) []) out.old) }
{
    if !good {
        return p;
    }
    copying::copy(&s[at..at + size], &mut out[p..]);
    p + size
}

// Writes the offset of a record that is dropped at a place of the report, likewise.
fn note(report: &mut [u64], k: usize, good: bool, at: usize) -> usize
    requires { good ≡ false → k < length report.old }
    ensures { (result ≡ k + length (pick good [] (at ∷ []))) × (report.new ≡ placed k (pick good [] (at ∷ [])) report.old) }
{
    if good {
        return k;
    }
    report[k] = at as u64;
    k + 1
}

// The records from a place on: the kept go behind the header, and the offsets of the dropped into the report.
fn sweep(edition: u32, s: &[u8], first: usize, out: &mut [u8], report: &mut [u64]) -> Clean
    requires { ((first ≤ length s.now) × (length s.now ≤ length out.old)) × (length (dropped_in (pieces_from edition s.now first)) ≤ length report.old) }
    ensures { Swept edition s.now first out.old report.old (said (Ok result)) out.new report.new }
{
    let mut at = first;
    let mut p = first;
    let mut k = 0;
    while let Some(size) = step(s, at) {
        let good = stands(edition, s, at);
        p = keep(s, at, size, good, out, p);
        k = note(report, k, good, at);
        at += size;
    }
    Clean {
        size: p,
        dropped: k,
        left: s.len() - at,
    }
}

// Writes the clean journal of a damaged one into a lent buffer and the offset of each dropped record into another.
pub fn rescue(s: &[u8], out: &mut [u8], report: &mut [u64]) -> Result<Clean, Refusal>
    ensures { (said result ≡ answer_for s.now out.old report.old) × ((out.new ≡ out_for s.now out.old report.old) × (report.new ≡ report_for s.now out.old report.old)) }
{
    let Ok(header) = journal::header(s) else {
        return Err(Refusal::JournalMalformed);
    };
    if out.len() < s.len() {
        return Err(Refusal::BufferShort);
    }
    if report.len() < count(header.edition, s, header.first) {
        return Err(Refusal::BufferShort);
    }
    copying::copy(&s[..header.first], out);
    Ok(sweep(header.edition, s, header.first, out, report))
}
