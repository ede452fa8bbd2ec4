// What each edition of the rules has. An edition is a number, since a book's settings hold it so, and one that is not listed is refused as unsound.
#![tactic(auto)]

ghost use Rattle.std.specs.Prelude.{◌≡◌};
ghost use Rattle.edition.specs.Edition.{listed, holds_amount, fresh_window, round_limit, keeps_terms};

pub const FIRST: u32 = 1;

pub const LATEST: u32 = 5;

// A snapshot that names no edition is of this one.
pub const UNNAMED: u32 = 3;

// Whether there is such an edition.
#[tactic(auto, unfolding(crate::specs::Edition::listed))]
pub fn is_listed(edition: u32) -> bool
    ensures { result ≡ listed edition }
{
    (FIRST..=LATEST).contains(&edition)
}

// Whether amend and counter hold the amount to the invoice's.
#[tactic(auto, unfolding(crate::specs::Edition::holds_amount))]
pub fn holds_amount(edition: u32) -> bool
    ensures { result ≡ holds_amount edition }
{
    2 <= edition
}

// The window of a fresh book.
#[tactic(auto, unfolding(crate::specs::Edition::fresh_window))]
pub fn fresh_window(edition: u32) -> u64
    ensures { result ≡ fresh_window edition }
{
    if 3 <= edition { 259_200 } else { 604_800 }
}

// How many rounds an offer gets at most.
#[tactic(auto, unfolding(crate::specs::Edition::round_limit))]
pub fn round_limit(edition: u32) -> u32
    ensures { result ≡ round_limit edition }
{
    if 4 <= edition { 16 } else { 12 }
}

// Whether a schedule keeps its terms, so that its installments leave no rest, and is of one of two kinds.
#[tactic(auto, unfolding(crate::specs::Edition::keeps_terms))]
pub fn keeps_terms(edition: u32) -> bool
    ensures { result ≡ keeps_terms edition }
{
    5 <= edition
}
