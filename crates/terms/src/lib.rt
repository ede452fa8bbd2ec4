// The terms of an offer and the arithmetic of its schedule. Nothing here knows of the book.
#![tactic(auto)]

ghost use Rattle.std.specs.Prelude.{◌≡◌, true, ◌<◌, ◌≤◌};
ghost use Rattle.terms.specs.Terms.{price_ok, terms_ok, same_terms, count_ok};
ghost use Rattle.terms.specs.Kind.{kind_listed, first_of};
ghost use Rattle.terms.specs.Installment.{installment_of, installment_says};
ghost use Rattle.terms.specs.Schedule.{period_listed, seconds_of, period_of, period_says, keeps_ok, keeps_none, made_of, schedule_in, schedule_ok, schedule_zero, installments_of};
ghost use Rattle.installments.specs.Sums as Sums;
ghost use Rattle.installments.specs.Flat.{part_of};
ghost use Rattle.installments.specs.Arguments.{falling_ok, due_as};
ghost use Rattle.terms.specs.Due.{elapsed_of, due_of, due_says, due_arguments};

use installments::Due;

// An amount in minor units, a rate in basis points and a duration in seconds.
#[derive(Clone, Copy, PartialEq, Eq)]
pub struct Terms {
    pub amount: i64,
    pub rate: u32,
    pub duration: u64,
}

// How many installments, the code of their period, the first one's amount, and when it is due; the amount and the rate of the terms
// that it was made of, where the edition keeps them, and its kind.
#[derive(Clone, Copy, PartialEq, Eq)]
pub struct Schedule {
    pub count: u32,
    pub code: u32,
    pub installment: i64,
    pub first: u64,
    pub amount: i64,
    pub rate: u32,
    pub kind: u32,
}

// The kinds of schedule: installments that are alike but for the last, which carries what is left where the terms are kept; and
// such with interest on outstanding principal.
// Numbers, since a book's rows hold them so, and one that is not listed is refused as unsound.
pub const FLAT: u32 = 0;

pub const FALLING: u32 = 1;

impl Schedule {
    // The schedule of an offer's terms, which it keeps or not.
    // Seven values one by one, as its definition made_of names them: a struct of them would be the schedule itself.
    pub fn made(
        kept: bool,
        t: Terms,
        kind: u32,
        count: u32,
        code: u32,
        first: u64,
        installment: i64,
    ) -> Schedule
        ensures { result ≡ made_of kept t kind count code first installment }
    {
        let (amount, rate) = if kept { (t.amount, t.rate) } else { (0, 0) };
        Schedule {
            count,
            code,
            installment,
            first,
            amount,
            rate,
            kind,
        }
    }
}

fn price_valid(amount: i64, rate: u32) -> bool
    ensures { result ≡ price_ok amount rate }
{
    money::in_amount_range(amount) & (1..=10_000).contains(&rate)
}

// Amount, rate and duration in range.
#[tactic(auto, unfolding(crate::specs::Terms::terms_ok))]
pub fn terms_valid(t: Terms) -> bool
    ensures { result ≡ terms_ok t }
{
    price_valid(t.amount, t.rate) & (86_400..=31_536_000).contains(&t.duration)
}

// Whether all three are the same.
#[tactic(auto, unfolding(crate::specs::Terms::same_terms))]
pub fn same_terms(a: Terms, b: Terms) -> bool
    ensures { result ≡ same_terms a b }
{
    a == b
}

// From 1 to 1,200 installments.
pub fn count_valid(count: u32) -> bool
    ensures { result ≡ count_ok count }
{
    (1..=1_200).contains(&count)
}

// Weekly, fortnightly or every thirty days. A number, since a book's rows hold it so.
pub fn code_listed(code: u32) -> bool
    ensures { result ≡ period_listed code }
{
    (1..=3).contains(&code)
}

// Whether there is such a kind: the flat one, and the falling one where the edition keeps a schedule's terms.
#[tactic(auto, unfolding(crate::specs::Kind::kind_listed))]
pub fn kind_listed(kept: bool, kind: u64) -> bool
    ensures { result ≡ kind_listed kept kind }
{
    kind == FLAT as u64 || kept && kind == FALLING as u64
}

#[tactic(auto, unfolding(crate::specs::Schedule::schedule_in))]
fn schedule_in(s: Schedule) -> bool
    ensures { result ≡ schedule_in s }
{
    count_valid(s.count) & code_listed(s.code) & money::in_installment_range(s.installment)
}

// The kept terms are in range, there is such a kind, and the installment is the first of both.
#[tactic(auto, unfolding(crate::specs::Schedule::keeps_ok))]
fn keeps_ok(s: Schedule) -> bool
    requires { count_ok s.count ≡ true }
    ensures { result ≡ keeps_ok s }
{
    if !(price_valid(s.amount, s.rate) & kind_listed(true, s.kind as u64)) {
        return false;
    }
    s.installment == first_of(s.kind, money::magnitude(s.amount), s.rate, s.count) as i64
}

#[tactic(auto, unfolding(crate::specs::Schedule::keeps_none))]
fn keeps_none(s: Schedule) -> bool
    ensures { result ≡ keeps_none s }
{
    (s.amount == 0) & (s.rate == 0) & (s.kind == FLAT)
}

// A schedule that was made, with the terms that it keeps or with none.
#[tactic(auto, unfolding(crate::specs::Schedule::schedule_ok))]
pub fn schedule_ok(kept: bool, s: Schedule) -> bool
    ensures { result ≡ schedule_ok kept s }
{
    schedule_in(s) && if kept { keeps_ok(s) } else { keeps_none(s) }
}

// What a row without a schedule holds.
const NONE: Schedule = Schedule {
    count: 0,
    code: 0,
    installment: 0,
    first: 0,
    amount: 0,
    rate: 0,
    kind: FLAT,
};

// No schedule.
#[tactic(auto, unfolding(crate::specs::Schedule::schedule_zero, crate::specs::Schedule::schedule_none, crate::specs::Schedule::keeps_none))]
pub fn schedule_zero(s: Schedule) -> bool
    ensures { result ≡ schedule_zero s }
{
    s == NONE
}

// A part of the amount with its part of the yield.
#[tactic(auto, unfolding(installments::specs::Flat::part_of))]
fn part_of(amount: u64, rate: u32, count: u32) -> u64
    requires amount_bound { amount ≤ 1000000000000 }
    requires rate_bound { rate ≤ 10000 }
    requires count_nonzero { 0 < count }
    ensures { result ≡ part_of amount rate count }
{
    let part = amount / count as u64;
    part + part * rate as u64 / 10_000
}

// The first installment of a kind.
#[tactic(auto, unfolding(crate::specs::Kind::first_of, installments::specs::Arguments::first_if, refusal::specs::Choice::pick))]
fn first_of(kind: u32, amount: u64, rate: u32, count: u32) -> u64
    requires { falling_ok amount rate count 0 0 ≡ true }
    ensures { result ≡ first_of kind amount rate count }
{
    if kind == FALLING {
        installments::falling_first(amount, rate as u64, count as u64)
    } else {
        part_of(amount, rate, count)
    }
}

// What the first installment of a kind is: of a flat one its part of the amount and of the yield.
#[tactic(auto, unfolding(crate::specs::Installment::installment_of, crate::specs::Installment::installment_amount, refusal::specs::Choice::pick))]
pub fn installment(t: Terms, kind: u32, count: u32) -> Option<i64>
    ensures { installment_says result ≡ installment_of t kind count }
{
    if !(terms_valid(t) & count_valid(count) & kind_listed(true, kind as u64)) {
        return None;
    }
    Some(first_of(kind, money::magnitude(t.amount), t.rate, count) as i64)
}

// 0 for a code that is not listed.
#[tactic(auto, unfolding(crate::specs::Schedule::seconds_of, refusal::specs::Choice::pick))]
fn seconds(code: u32) -> u64
    ensures { result ≡ seconds_of code }
{
    match code {
        1 => 604_800,
        2 => 1_209_600,
        3 => 2_592_000,
        _ => 0,
    }
}

// The seconds of a period's code.
#[tactic(auto, unfolding(crate::specs::Schedule::period_of, refusal::specs::Choice::pick))]
pub fn period(code: u32) -> Option<u64>
    ensures { period_says result ≡ period_of code }
{
    code_listed(code).then(|| seconds(code))
}

// How many installments have fallen due since the first.
#[tactic(auto, unfolding(crate::specs::Due::elapsed_of))]
fn elapsed(since: u64, period: u64, count: u64) -> u64
    requires { 0 < period }
    ensures { result ≡ elapsed_of since period count }
{
    (since / period).saturating_add(1).min(count)
}

#[tactic(auto, unfolding(crate::specs::Due::due_arguments))]
fn due_arguments(kept: bool, s: Schedule, status: u32, repaid: i64) -> bool
    ensures { result ≡ due_arguments kept s status repaid }
{
    schedule_ok(kept, s) & (status <= DEFAULTED) & money::in_total_range(repaid)
}

// What is due of a schedule's installments.
fn due_of(kept: bool, s: Schedule, elapsed: u64, repaid: u64) -> Due
    requires s_value { schedule_ok kept s ≡ true }
    requires elapsed_le_count { elapsed ≤ s.count }
    requires repaid_bound { repaid ≤ 4000000000000000 }
    ensures { result ≡ due_as (Sums.due_of (installments_of kept s) elapsed repaid) }
{
    let installment = money::magnitude(s.installment);
    let count = s.count as u64;
    if !kept {
        return installments::even_due(count, installment, elapsed, repaid);
    }
    let amount = money::magnitude(s.amount);
    let rate = s.rate as u64;
    if s.kind == FALLING {
        installments::falling_due(amount, rate, count, elapsed, repaid)
    } else {
        installments::flat_due(
            count,
            installment,
            installments::total(amount, rate),
            elapsed,
            repaid,
        )
    }
}

// Where an offer stands: numbers, since a book's rows hold them so, and one that is not listed is refused as unsound.
pub const PENDING: u32 = 0;

pub const ACCEPTED: u32 = 1;

pub const REJECTED: u32 = 2;

pub const FINANCED: u32 = 3;

pub const REPAID: u32 = 4;

pub const DEFAULTED: u32 = 5;

// The installment that is due at a time and what is owed on it, 0 and 0 where none is; with the terms that the schedule keeps or none.
#[tactic(auto, unfolding(crate::specs::Due::due_of, crate::specs::Due::owed_at, installments::specs::Arguments::due_as, refusal::specs::Choice::pick))]
pub fn due(kept: bool, s: Schedule, status: u32, repaid: i64, now: u64) -> Option<Due>
    ensures { due_says result ≡ due_of kept s status repaid now }
{
    if !due_arguments(kept, s, status, repaid) {
        return None;
    }
    if status == REPAID || status == DEFAULTED || now < s.first {
        return Some(Due { number: 0, owed: 0 });
    }
    let n = elapsed(now - s.first, seconds(s.code), s.count as u64);
    Some(due_of(kept, s, n, money::magnitude(repaid)))
}
