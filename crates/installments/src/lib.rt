// The due rule over a list of installments. Nothing here knows of the book, of an edition or of a schedule.
#![tactic(auto)]

ghost use Rattle.std.specs.Prelude.{◌≡◌, ◌<◌, ◌≤◌};
ghost use Rattle.installments.specs.Sums.{due_of};
ghost use Rattle.installments.specs.Even.{even};
ghost use Rattle.installments.specs.Flat.{flat, flat_sum, flat_paid};
ghost use Rattle.installments.specs.Falling.{falling, falling_member};
ghost use Rattle.installments.specs.Arguments.{due_ok, even_ok, flat_ok, terms_ok, falling_ok, due_if, total_if, first_if};
ghost use Rattle.installments.specs.ArgumentLaws.{FallingIn};

// The number of the installment that is due and the sum still owed on it; 0 and 0 where none is.
#[derive(Clone, Copy)]
pub struct Due {
    pub number: u64,
    pub owed: u64,
}

// Number 0 is no installment: what is due leaves the book as these two numbers.
const NONE: Due = Due { number: 0, owed: 0 };

// A test and not a type: the functions answer 0 and 0 of any numbers out of range, and a narrower argument would ask more.
#[tactic(auto, unfolding(crate::specs::Arguments::due_ok))]
fn due_ok(count: u64, elapsed: u64, repaid: u64) -> bool
    ensures { result ≡ due_ok count elapsed repaid }
{
    (1..=1_200).contains(&count) & (elapsed <= count) & (repaid <= 4_000_000_000_000_000)
}

#[tactic(auto, unfolding(crate::specs::Arguments::even_ok))]
fn even_ok(count: u64, installment: u64, elapsed: u64, repaid: u64) -> bool
    ensures { result ≡ even_ok count installment elapsed repaid }
{
    due_ok(count, elapsed, repaid) & (1..=2_000_000_000_000).contains(&installment)
}

#[tactic(auto, unfolding(crate::specs::Arguments::flat_ok, crate::specs::Arguments::even_ok, crate::specs::Arguments::due_ok))]
fn flat_ok(count: u64, installment: u64, total: u64, elapsed: u64, repaid: u64) -> bool
    ensures { result ≡ flat_ok count installment total elapsed repaid }
{
    even_ok(count, installment, elapsed, repaid)
        && (count - 1) * installment < total
        && total <= 2_000_000_000_000
}

#[tactic(auto, unfolding(crate::specs::Arguments::terms_ok))]
fn terms_ok(amount: u64, rate: u64) -> bool
    ensures { result ≡ terms_ok amount rate }
{
    (1..=1_000_000_000_000).contains(&amount) & (1..=10_000).contains(&rate)
}

#[tactic(auto, unfolding(crate::specs::Arguments::falling_ok))]
fn falling_ok(amount: u64, rate: u64, count: u64, elapsed: u64, repaid: u64) -> bool
    ensures { result ≡ falling_ok amount rate count elapsed repaid }
{
    due_ok(count, elapsed, repaid) & terms_ok(amount, rate)
}

// What is due where every installment is the same.
#[tactic(auto, unfolding(crate::specs::Arguments::due_if, crate::specs::Arguments::due_as, refusal::specs::Choice::pick))]
pub fn even_due(count: u64, installment: u64, elapsed: u64, repaid: u64) -> Due
    ensures { result ≡ due_if (even_ok count installment elapsed repaid) (due_of (even count installment) elapsed repaid) }
{
    if !even_ok(count, installment, elapsed, repaid) {
        return NONE;
    }
    let paid = repaid / installment;
    if elapsed <= paid {
        return NONE;
    }
    let number = paid + 1;
    Due {
        number,
        owed: number * installment - repaid,
    }
}

// How many of them are paid where the last one carries what is left of the total.
#[tactic(auto, unfolding(crate::specs::Flat::flat_paid, refusal::specs::Choice::pick))]
fn flat_paid(count: u64, installment: u64, total: u64, repaid: u64) -> u64
    requires le_count { 1 ≤ count }
    requires installment_nonzero { 0 < installment }
    ensures { result ≡ flat_paid count installment total repaid }
{
    if total <= repaid {
        count
    } else {
        (repaid / installment).min(count - 1)
    }
}

// The sum up to one of them.
#[tactic(auto, unfolding(crate::specs::Flat::flat_sum, refusal::specs::Choice::pick))]
fn flat_sum(count: u64, installment: u64, total: u64, k: u64) -> u64
    requires count_bound { count ≤ 1200 }
    requires installment_bound { installment ≤ 2000000000000 }
    ensures { result ≡ flat_sum count installment total k }
{
    if k < count { k * installment } else { total }
}

// What is due where the last installment carries what is left of the total.
#[tactic(auto, unfolding(crate::specs::Arguments::due_if, crate::specs::Arguments::due_as, refusal::specs::Choice::pick))]
pub fn flat_due(count: u64, installment: u64, total: u64, elapsed: u64, repaid: u64) -> Due
    ensures { result ≡ due_if (flat_ok count installment total elapsed repaid) (due_of (flat count installment total) elapsed repaid) }
{
    if !flat_ok(count, installment, total, elapsed, repaid) {
        return NONE;
    }
    let settled = flat_paid(count, installment, total, repaid);
    if elapsed <= settled {
        return NONE;
    }
    let number = settled + 1;
    Due {
        number,
        owed: flat_sum(count, installment, total, number) - repaid,
    }
}

// Member k, from 0, of the installments with interest on what is outstanding.
#[tactic(auto, unfolding(crate::specs::Falling::falling_member, crate::specs::Falling::principal, crate::specs::Falling::interest, crate::specs::Falling::outstanding, refusal::specs::Choice::pick))]
fn falling_member(amount: u64, rate: u64, count: u64, k: u64) -> u64
    requires { FallingIn amount rate count k 0 }
    ensures { result ≡ falling_member amount rate count k }
{
    let share = amount / count;
    let outstanding = amount - k * share;
    let interest = outstanding * rate / (10_000 * count);
    if k + 1 == count {
        outstanding + interest
    } else {
        share + interest
    }
}

// What is due where the interest is on outstanding principal: the first sum that the amount repaid does not reach.
#[tactic(auto, unfolding(crate::specs::Arguments::due_if, crate::specs::Arguments::due_as, refusal::specs::Choice::pick))]
pub fn falling_due(amount: u64, rate: u64, count: u64, elapsed: u64, repaid: u64) -> Due
    ensures { result ≡ due_if (falling_ok amount rate count elapsed repaid) (due_of (falling amount rate count) elapsed repaid) }
{
    if !falling_ok(amount, rate, count, elapsed, repaid) {
        return NONE;
    }
    let mut sum = 0;
    for i in 0..elapsed {
        sum += falling_member(amount, rate, count, i);
        if repaid < sum {
            return Due {
                number: i + 1,
                owed: sum - repaid,
            };
        }
    }
    NONE
}

// The first installment with interest on outstanding principal, 0 where an argument is out of range.
#[tactic(auto, unfolding(crate::specs::Arguments::first_if, crate::specs::Arguments::falling_ok, crate::specs::Arguments::terms_ok, crate::specs::Arguments::due_ok, refusal::specs::Choice::pick))]
pub fn falling_first(amount: u64, rate: u64, count: u64) -> u64
    ensures { result ≡ first_if amount rate count }
{
    if falling_ok(amount, rate, count, 0, 0) {
        falling_member(amount, rate, count, 0)
    } else {
        0
    }
}

// The amount with its yield as a whole, 0 where an argument is out of range.
#[tactic(auto, unfolding(crate::specs::Arguments::total_if, crate::specs::Arguments::terms_ok, crate::specs::Flat::total_of, refusal::specs::Choice::pick))]
pub fn total(amount: u64, rate: u64) -> u64
    ensures { result ≡ total_if amount rate }
{
    if terms_ok(amount, rate) {
        amount + amount * rate / 10_000
    } else {
        0
    }
}
