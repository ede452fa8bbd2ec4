// The fields whose numbers stand in a line, by its tag.
ghost use Rattle.std.specs.Prelude.{◌≡◌};
ghost use Rattle.text.specs.Fields.{asked_of, fields_for};

use crate::names;

#[tactic(auto, unfolding(crate::specs::Fields::asked_of, refusal::specs::Choice::pick))]
fn asked(tag: u8) -> &'static [u8]
    ensures { result.now ≡ asked_of tag }
{
    match tag {
        0x76 | 0x77 => &[0x03, 0x01],
        0x66 => &[0x03, 0x03],
        0x65 | 0x78..=0x7d => &[],
        _ => &[0x03],
    }
}

// The fields of a command of an edition, or of a question.
#[tactic(auto, unfolding(crate::specs::Fields::fields_for, refusal::specs::Choice::pick))]
pub(crate) fn listed(edition: u32, tag: u8) -> &'static [u8]
    ensures { result.now ≡ fields_for edition tag }
{
    if names::is_command(tag) {
        journal::tables::fields(edition, tag)
    } else {
        asked(tag)
    }
}
