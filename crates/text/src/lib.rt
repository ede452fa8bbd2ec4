// Journals as text, one command a line, and back.
#![tactic(auto)]

mod fields;
mod names;
pub mod reading;
mod writing;

ghost use Rattle.std.specs.Prelude.{◌≡◌, false};
ghost use Rattle.sheet.specs.Sheet.{Wrote, pen_at};
ghost use Rattle.text.specs.Answers.{answered, answer_for, left_for};
ghost use Rattle.text.specs.Title.{title_in};
ghost use Rattle.text.specs.Text.{records_of, lines_of, text_of};
ghost use Rattle.text.specs.Journal.{lines_in, bytes_from, fault_line, journal_of};
ghost use Rattle.journal.specs.Format.{header_of, opening_of, record_of};

use journal::Decoded;
use sheet::Pen;

// How many bytes were written; the offset of a malformed record or the number of a line that is none; or that the buffer is too short.
#[derive(Clone, Copy)]
pub enum Answer {
    Done(usize),
    Malformed(usize),
    Short,
}

// Where a walk stopped, whether at a fault, and the pen then.
#[derive(Clone, Copy)]
pub(crate) struct Told {
    pub(crate) pen: Pen,
    pub(crate) bad: bool,
    pub(crate) at: usize,
}

// One walk over a journal, which writes the lines as it goes. Without ink it only measures.
// The step is the length of the record that was read, so that a `for` has nothing to go over.
fn tell(s: &[u8], out: &mut [u8], ink: bool) -> Told
    ensures { Wrote ink (lines_of (opening_of s.now).edition (records_of s.now)) out.old (pen_at 0 false) out.new result.pen × ((result.bad ≡ (records_of s.now).bad) × (result.at ≡ (records_of s.now).at)) }
{
    let start = Pen {
        at: 0,
        short: false,
    };
    let Ok(header) = journal::header(s) else {
        return Told {
            pen: start,
            bad: true,
            at: 0,
        };
    };
    let edition = header.edition;
    let mut pen = writing::put_title(out, start, ink, edition);
    let mut at = header.first;
    loop {
        match journal::decode(edition, s, at) {
            Decoded::Command(c, next) => {
                let (tag, numbers) = journal::writing::split(edition, c);
                pen = writing::put_line(out, pen, ink, edition, tag, numbers);
                at = next;
            }
            Decoded::Malformed(_) => {
                return Told { pen, bad: true, at };
            }
            Decoded::End => {
                return Told {
                    pen,
                    bad: false,
                    at,
                };
            }
        }
    }
}

// Writes the lines of a journal where they fit, else leaves the buffer as it is.
pub fn to_text(journal: &[u8], out: &mut [u8]) -> Answer
    ensures { (answered result ≡ answer_for (text_of journal.now) out.old) × (out.new ≡ left_for (text_of journal.now) out.old) }
{
    let dry = tell(journal, out, false);
    if dry.bad {
        return Answer::Malformed(dry.at);
    }
    if dry.pen.short {
        return Answer::Short;
    }
    Answer::Done(tell(journal, out, true).pen.at)
}

fn put_header(out: &mut [u8], pen: Pen, ink: bool, edition: u32) -> Pen
    ensures { Wrote ink (header_of edition) out.old pen out.new result }
{
    let mut header = [0u8; 5];
    let _ = journal::write_header(&mut header, edition);
    sheet::put(out, pen, ink, &header)
}

fn put_record(out: &mut [u8], pen: Pen, ink: bool, edition: u32, tag: u8, numbers: [u64; 9]) -> Pen
    ensures { Wrote ink (record_of edition tag numbers) out.old pen out.new result }
{
    // Room for the longest record: no case is short.
    let mut bytes = [0u8; 102];
    let Ok(size) = journal::encode_parts(edition, tag, numbers, &mut bytes, 0) else {
        return pen;
    };
    sheet::put(out, pen, ink, &bytes[..size])
}

// One walk over a text, which writes the header and the records as it goes. A fault is told by its line's number, from 1.
// The step is the length of the line that was read, so that a `for` has nothing to go over.
fn tell_lines(s: &[u8], out: &mut [u8], ink: bool) -> Told
    ensures { Wrote ink (bytes_from (title_in s.now).edition (lines_in s.now)) out.old (pen_at 0 false) out.new result.pen × ((result.bad ≡ (lines_in s.now).bad) × (result.at ≡ fault_line (title_in s.now).lines (lines_in s.now))) }
{
    let start = Pen {
        at: 0,
        short: false,
    };
    let title = reading::title_of(s);
    let edition = title.edition;
    let mut pen = put_header(out, start, ink, edition);
    let mut at = title.next;
    let mut k = title.lines;
    while at < s.len() {
        let x = reading::line_at(edition, s, at, 0x21, 0x57);
        if !x.ok {
            return Told {
                pen,
                bad: true,
                at: k + 1,
            };
        }
        pen = put_record(out, pen, ink, edition, x.tag, x.values);
        at = x.next;
        k += 1;
    }
    Told {
        pen,
        bad: false,
        at: 0,
    }
}

// Writes the journal of a text where it fits, else leaves the buffer as it is.
pub fn to_journal(text: &[u8], out: &mut [u8]) -> Answer
    ensures { (answered result ≡ answer_for (journal_of text.now) out.old) × (out.new ≡ left_for (journal_of text.now) out.old) }
{
    let dry = tell_lines(text, out, false);
    if dry.bad {
        return Answer::Malformed(dry.at);
    }
    if dry.pen.short {
        return Answer::Short;
    }
    Answer::Done(tell_lines(text, out, true).pen.at)
}
