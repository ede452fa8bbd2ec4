// What the desk's admins set: the window of a negotiation, the repayment account, the seats, the pause.
#![tactic(auto)]

ghost use Rattle.std.specs.Prelude.{◌≡◌};
ghost use Rattle.refusal.specs.Rule.{outcome};
ghost use Rattle.settings.specs.Settings.{fresh_settings, settings_sound, in_window, admin_passes, is_repayer, pause_of, window_of, repayer_of, seats_of};

use refusal::Refusal;

pub const SHORTEST_WINDOW: u64 = 3600;

pub const LONGEST_WINDOW: u64 = 2592000;

// What the book's admins set, and the edition of its rules, which nothing changes. The repayment account counts only once it is appointed.
#[derive(Clone, Copy)]
pub struct Settings {
    pub window: u64,
    pub repayer: u64,
    pub seats: u32,
    pub threshold: u32,
    pub edition: u32,
    pub appointed: bool,
    pub paused: bool,
}

// Whether a window is in range.
fn in_window(window: u64) -> bool
    ensures { result ≡ in_window window }
{
    (SHORTEST_WINDOW..=LONGEST_WINDOW).contains(&window)
}

impl Settings {
    // Whether the seats presented reach the threshold.
    #[tactic(auto, unfolding(crate::specs::Settings::admin_passes))]
    pub fn admin_passes(self, presented: u64) -> bool
        ensures { result ≡ admin_passes self presented }
    {
        seats::reaches(presented, self.seats, self.threshold)
    }

    // Whether the caller is the appointed repayment account.
    #[tactic(auto, unfolding(crate::specs::Settings::is_repayer))]
    pub fn is_repayer(self, caller: u64) -> bool
        ensures { result ≡ is_repayer self caller }
    {
        self.appointed && self.repayer == caller
    }

    // A listed edition, the window in range, and a threshold that the seats can reach.
    #[tactic(auto, unfolding(crate::specs::Settings::settings_sound))]
    pub fn sound(self) -> bool
        ensures { result ≡ settings_sound self }
    {
        let known = edition::is_listed(self.edition);
        let reachable = seats::threshold_ok(u64::from(self.seats), self.threshold);
        known && (in_window(self.window) && reachable)
    }

    // Seat 0 alone with threshold 1, no repayment account, not paused, and an edition's window.
    pub fn fresh(edition: u32) -> Settings
        ensures { result ≡ fresh_settings edition }
    {
        Settings {
            window: edition::fresh_window(edition),
            repayer: 0,
            seats: 1,
            threshold: 1,
            edition,
            appointed: false,
            paused: false,
        }
    }

    // The admins pause the desk or let it go on.
    pub fn pause(mut self, presented: u64, paused: bool) -> Result<Settings, Refusal>
        ensures { result ≡ outcome (pause_of self presented paused) }
    {
        if !self.admin_passes(presented) {
            return Err(Refusal::Unauthorized);
        }
        self.paused = paused;
        Ok(self)
    }

    // How long a negotiation stays open after its first round.
    pub fn set_window(mut self, presented: u64, window: u64) -> Result<Settings, Refusal>
        ensures { result ≡ outcome (window_of self presented window) }
    {
        if !self.admin_passes(presented) {
            return Err(Refusal::Unauthorized);
        }
        if !in_window(window) {
            return Err(Refusal::InvalidInput);
        }
        self.window = window;
        Ok(self)
    }

    // Who may post repayments. `known`: whether the account that is appointed has a row.
    pub fn set_repayer(mut self, presented: u64, id: u64, known: bool) -> Result<Settings, Refusal>
        ensures { result ≡ outcome (repayer_of self presented id known) }
    {
        if !self.admin_passes(presented) {
            return Err(Refusal::Unauthorized);
        }
        if !known {
            return Err(Refusal::NotFound);
        }
        self.repayer = id;
        self.appointed = true;
        Ok(self)
    }

    // The seats and how many of them an admin command takes.
    pub fn set_seats(
        mut self,
        presented: u64,
        threshold: u32,
        next: u64,
    ) -> Result<Settings, Refusal>
        ensures { result ≡ outcome (seats_of self presented threshold next) }
    {
        if !self.admin_passes(presented) {
            return Err(Refusal::Unauthorized);
        }
        if !seats::threshold_ok(next, threshold) {
            return Err(Refusal::InvalidInput);
        }
        self.seats = (next % 4294967296) as u32;
        self.threshold = threshold;
        Ok(self)
    }
}
