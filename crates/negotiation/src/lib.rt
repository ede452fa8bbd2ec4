// The rounds of an offer: who put down which terms and when, and where the negotiation stands.
#![tactic(auto)]

ghost use Rattle.std.specs.Prelude.{◌≡◌, cond};
ghost use Rattle.refusal.specs.Rule.{passing};
ghost use Rattle.negotiation.specs.Rounds.{terms_of, round_of, deadline_of, status_of, negotiable, added_of, accepted_of, closed_as, agrees_of, round_slots, round_sound, round_zero, no_round, no_negotiation, negotiation_sound, negotiation_zero};
ghost use Rattle.negotiation.specs.Whole.{Whole};

use refusal::Refusal;
use terms::Terms;

// 32 bytes, so that a book of sixteen rounds an offer stays small. The party is the number that a book stores, listed or not: a test of
// the whole book answers for any number.
#[derive(Clone, Copy, Debug, PartialEq, Eq)]
pub struct Round {
    pub amount: i64,
    pub duration: u64,
    pub time: u64,
    pub rate: u32,
    pub party: u32,
}

// Who put a round down.
pub const LENDER: u32 = 0;

pub const ORIGINATOR: u32 = 1;

// An offer has places for this many rounds; how many of them it gets is its edition's.
pub const ROUND_SLOTS: u32 = 16;

// The outcome is the number that a book stores, listed or not, as a round's party is.
// Sixteen places and how many are in use: fixed memory, no heap.
#[derive(Clone, Copy, Debug, PartialEq, Eq)]
pub struct Negotiation {
    pub rounds: [Round; 16],
    pub deadline: u64,
    pub len: u32,
    pub outcome: u32,
}

// Where a negotiation stands. Closed, Accepted and Expired can be stored as its outcome; 0 is no outcome.
pub const NONE: u32 = 0;

pub const OPEN: u32 = 1;

pub const CLOSED: u32 = 2;

pub const ACCEPTED: u32 = 3;

pub const EXPIRED: u32 = 4;

impl Round {
    // The row that is not in use.
    fn none() -> Round
        ensures { result ≡ no_round }
    {
        Round {
            amount: 0,
            duration: 0,
            time: 0,
            rate: 0,
            party: 0,
        }
    }

    // A round that a party puts down now.
    pub fn new(now: u64, t: Terms, party: u32) -> Round
        ensures { result ≡ round_of now t party }
    {
        Round {
            amount: t.amount,
            duration: t.duration,
            time: now,
            rate: t.rate,
            party,
        }
    }

    // The round's terms.
    pub fn terms(self) -> Terms
        ensures { result ≡ terms_of self }
    {
        Terms {
            amount: self.amount,
            rate: self.rate,
            duration: self.duration,
        }
    }

    // In range, with rows past the rounds zero.
    #[tactic(auto, unfolding(crate::specs::Rounds::round_sound))]
    pub fn sound(self) -> bool
        ensures { result ≡ round_sound self }
    {
        terms::terms_valid(self.terms()) && self.party <= ORIGINATOR
    }

    // Whether every number is 0.
    #[tactic(auto, unfolding(crate::specs::Rounds::round_zero))]
    pub fn zero(self) -> bool
        ensures { result ≡ round_zero self }
    {
        self == Round::none()
    }

    // Whether the row can stand at a place: sound where the place is in use, else zero.
    pub fn fits(self, used: bool) -> bool
        ensures { result ≡ cond used (round_sound self) (round_zero self) }
    {
        if used { self.sound() } else { self.zero() }
    }
}

// The end of the window that the first round opens; later rounds leave it.
#[tactic(auto, unfolding(crate::specs::Rounds::deadline_of, refusal::specs::Choice::pick))]
pub fn deadline_after(len: u32, now: u64, window: u64, old: u64) -> u64
    ensures { result ≡ deadline_of len now window old }
{
    if len == 0 {
        now.saturating_add(window)
    } else {
        old
    }
}

impl Negotiation {
    // No rounds, no deadline, no outcome.
    pub fn none() -> Negotiation
        ensures { result ≡ no_negotiation }
    {
        Negotiation {
            rounds: [Round::none(); 16],
            deadline: 0,
            len: 0,
            outcome: 0,
        }
    }

    // Where the negotiation stands at a time.
    #[tactic(auto, unfolding(crate::specs::Rounds::status_of, refusal::specs::Choice::pick))]
    pub fn status(self, pending: bool, now: u64) -> u32
        ensures { result ≡ status_of self pending now }
    {
        if self.outcome != 0 {
            self.outcome
        } else if self.len == 0 {
            NONE
        } else if !pending {
            CLOSED
        } else if self.deadline < now {
            EXPIRED
        } else {
            OPEN
        }
    }

    // Whether one more round can be put down: the offer is Pending, the negotiation None or Open, and its rounds are as many as expected
    // and fewer than the limit.
    pub fn negotiable(self, limit: u32, pending: bool, now: u64, round: u32) -> Result<(), Refusal>
        ensures { result ≡ passing (negotiable limit self pending now round) }
    {
        if !pending {
            return Err(Refusal::InvalidTransition);
        }
        if OPEN < self.status(pending, now) {
            return Err(Refusal::InvalidTransition);
        }
        if self.len != round {
            return Err(Refusal::InvalidInput);
        }
        if limit <= self.len {
            return Err(Refusal::InvalidTransition);
        }
        Ok(())
    }

    // One round more; the first sets the deadline.
    #[tactic(auto, unfolding(crate::specs::Rounds::added_of, refusal::specs::Choice::pick))]
    pub fn added(mut self, r: Round, window: u64) -> Negotiation
        ensures { result ≡ added_of round_slots self r window }
    {
        if ROUND_SLOTS <= self.len {
            return self;
        }
        self.deadline = deadline_after(self.len, r.time, window, self.deadline);
        self.rounds[self.len as usize] = r;
        self.len += 1;
        self
    }

    // Accepted is stored where there are rounds and no outcome.
    #[tactic(auto, unfolding(crate::specs::Rounds::accepted_of, refusal::specs::Choice::pick))]
    pub fn accepted(mut self) -> Negotiation
        ensures { result ≡ accepted_of self }
    {
        if self.len != 0 && self.outcome == 0 {
            self.outcome = ACCEPTED;
        }
        self
    }

    // The same with an outcome stored.
    pub fn closed(mut self, outcome: u32) -> Negotiation
        ensures { result ≡ closed_as outcome self }
    {
        self.outcome = outcome;
        self
    }

    // Whether the originator's latest round has these terms.
    #[tactic(auto, unfolding(crate::specs::Rounds::agrees_of, crate::specs::Rounds::matches, refusal::specs::Choice::pick))]
    pub fn agrees(self, t: Terms) -> bool
        ensures { result ≡ agrees_of round_slots self t }
    {
        if ROUND_SLOTS < self.len {
            return false;
        }
        for i in (0..self.len as usize).rev() {
            let r = self.rounds[i];
            if r.party == ORIGINATOR {
                return terms::same_terms(r.terms(), t);
            }
        }
        false
    }

    // In range, with at most so many rounds and rows past them zero.
    #[tactic(auto, unfolding(crate::specs::Rounds::negotiation_sound))]
    pub fn sound(self, limit: u32) -> bool
        ensures tested { result ≡ negotiation_sound round_slots limit self }
        ensures whole { Whole round_slots self }
    {
        for (i, r) in self.rounds.iter().enumerate() {
            if !r.fits(i < self.len as usize) {
                return false;
            }
        }
        self.len <= limit
            && (self.outcome == NONE || (CLOSED <= self.outcome && self.outcome <= EXPIRED))
    }

    // Whether every number is 0.
    #[tactic(auto, unfolding(crate::specs::Rounds::negotiation_zero))]
    pub fn zero(self) -> bool
        ensures tested { result ≡ negotiation_zero round_slots self }
        ensures whole { Whole round_slots self }
    {
        self == Negotiation::none()
    }
}
