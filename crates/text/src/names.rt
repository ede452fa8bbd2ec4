// The names of commands, of questions and of the edition, by their tags.
ghost use Rattle.std.specs.Prelude.{◌≡◌};
ghost use Rattle.text.specs.Names.{commands, others, word_in, word_of, is_command};

#[tactic(auto, unfolding(crate::specs::Names::word_in, refusal::specs::Choice::pick))]
fn command(tag: u8) -> &'static [u8]
    ensures { result.now ≡ word_in commands tag }
{
    match tag {
        0x21 => b"open-account",
        0x22 => b"deposit",
        0x23 => b"payout",
        0x24 => b"approve",
        0x25 => b"register",
        0x26 => b"cancel",
        0x31 => b"create",
        0x32 => b"withdraw",
        0x33 => b"accept",
        0x34 => b"reject",
        0x35 => b"amend",
        0x36 => b"counter",
        0x37 => b"close",
        0x38 => b"schedule",
        0x41 => b"status",
        0x42 => b"repaid",
        0x43 => b"lender-repaid",
        0x44 => b"totals-repaid",
        0x51 => b"pause",
        0x52 => b"unpause",
        0x53 => b"window",
        0x54 => b"repayment-account",
        0x55 => b"blacklist",
        0x56 => b"seats",
        _ => b"",
    }
}

#[tactic(auto, unfolding(crate::specs::Names::word_in, refusal::specs::Choice::pick))]
fn other(tag: u8) -> &'static [u8]
    ensures { result.now ≡ word_in others tag }
{
    match tag {
        0x10 => b"edition",
        0x61 => b"offers-by-invoice",
        0x62 => b"offers-by-lender",
        0x63 => b"offers-by-status",
        0x64 => b"pending-offers",
        0x65 => b"all-offers",
        0x66 => b"page",
        0x71 => b"offer",
        0x72 => b"account",
        0x73 => b"lender",
        0x74 => b"schedule",
        0x76 => b"negotiation-status",
        0x77 => b"due",
        0x78 => b"count",
        0x79 => b"window",
        0x7a => b"seats",
        0x7b => b"threshold",
        0x7c => b"paused",
        0x7d => b"totals",
        0x7e => b"active",
        0x7f => b"negotiation",
        _ => b"",
    }
}

// Whether a tag stands between the edition's and the questions'.
pub(crate) fn is_command(tag: u8) -> bool
    ensures { result ≡ is_command tag }
{
    0x20 <= tag && tag < 0x60
}

// The name of a tag. None: no line has this tag.
#[tactic(auto, unfolding(crate::specs::Names::word_of, refusal::specs::Choice::pick))]
pub(crate) fn word(tag: u8) -> &'static [u8]
    ensures { result.now ≡ word_of tag }
{
    if is_command(tag) {
        command(tag)
    } else {
        other(tag)
    }
}
