// Seats are the bits of a number. Document 01's rule for an admin command, and for a new threshold.
#![tactic(auto)]

ghost use Rattle.std.specs.Prelude.{◌≡◌};
ghost use Rattle.seats.specs.Seats.{present_of, reaches_of, threshold_ok};

// How many seats are both presented and configured.
#[tactic(auto, unfolding(crate::specs::Seats::present_of))]
pub fn present(presented: u64, configured: u32) -> u32
    ensures { result ≡ present_of presented configured }
{
    let masked = presented & configured as u64;
    (masked as u32).count_ones()
}

// Whether the seats presented and configured reach the threshold.
#[tactic(auto, unfolding(crate::specs::Seats::reaches_of))]
pub fn reaches(presented: u64, configured: u32, threshold: u32) -> bool
    ensures { result ≡ reaches_of presented configured threshold }
{
    threshold <= present(presented, configured)
}

// Whether the next seats can be configured with this threshold.
#[tactic(auto, unfolding(crate::specs::Seats::threshold_ok, crate::specs::Seats::reaches_of))]
pub fn threshold_ok(next: u64, threshold: u32) -> bool
    ensures { result ≡ threshold_ok next threshold }
{
    let Ok(seats) = u32::try_from(next) else {
        return false;
    };
    1 <= threshold && reaches(next, seats, threshold)
}
