// No code: that what `replay` leaves meets the sums of the journal's accepted commands stands in specs/.
#![tactic(auto)]
