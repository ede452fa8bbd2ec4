// Questions, one a line, answered of a book in lines of numbers.
#![tactic(auto)]

mod rows;

ghost use Rattle.std.specs.Prelude.{◌≡◌, true, false, ◌-◌, MatchResult};
ghost use Rattle.sheet.specs.Sheet.{Wrote, pen_at};
ghost use Rattle.sheet.specs.declared.Pen.{Pen};
ghost use Rattle.text.specs.Answers.{answered, answer_for, left_for};
ghost use Rattle.text.specs.Journal.{fault_line};
ghost use Rattle.text.specs.Walk.{all_of};
ghost use Rattle.lists.specs.Listing.{offers_of};
ghost use Rattle.book.specs.Stored.{model_of, book_test, Shelved};
ghost use Rattle.asking.specs.Answers.{reply_in};
ghost use Rattle.asking.specs.Questions.{list_text, schedule_text, negotiation_text, answer_text, questions_in, answer_to, answers_of, told_says, told_for, left_by};

use book::Book;
use lists::{OfferRows, Wanted};
use negotiation::Negotiation;
use sheet::Pen;
use text::Answer;

// Why questions are not answered: the number of the first line that is none; the buffer is too short; the book is unsound.
#[derive(Clone, Copy, Debug, PartialEq, Eq)]
pub enum AskError {
    NoQuestion(usize),
    Short,
    Unsound,
}

// The tags of questions, by their names in crate text.
const FIRST: u8 = 0x61;

const PAST: u8 = 0x80;

fn put_list(out: &mut [u8], pen: Pen, ink: bool, offers: OfferRows, asked: Option<Wanted>) -> Pen
    ensures { Wrote ink (list_text asked (offers_of offers)) out.old pen out.new result }
{
    let Some(w) = asked else {
        return rows::put_row(out, pen, ink, refusal::INVALID_INPUT, &[]);
    };
    if !w.is_known() {
        return rows::put_row(out, pen, ink, refusal::INVALID_INPUT, &[]);
    }
    let count = [offers.count_of(w) as u64];
    let p = rows::put_row(out, pen, ink, 0, &count);
    rows::put_offers(out, p, ink, offers, w)
}

fn put_schedule(out: &mut [u8], pen: Pen, ink: bool, words: [u64; 12]) -> Pen
    ensures { Wrote ink (schedule_text (reply_in words)) out.old pen out.new result }
{
    if words[1] == 0 {
        return sheet::put(out, pen, ink, b"0 none\n");
    }
    rows::put_reply(out, pen, ink, words)
}

fn put_negotiation(out: &mut [u8], pen: Pen, ink: bool, g: Negotiation) -> Pen
    ensures { Wrote ink (negotiation_text g) out.old pen out.new result }
{
    let head = [g.len as u64, g.deadline, g.outcome as u64];
    let p = rows::put_row(out, pen, ink, 0, &head);
    rows::put_rounds(out, p, ink, g)
}

// A tag's place past another, 0 for one before it.
fn past(tag: u8, base: u8) -> u64
    ensures { result ≡ tag - base }
{
    u64::from(tag.saturating_sub(base))
}

// The answer to one question.
fn put_answer(out: &mut [u8], pen: Pen, ink: bool, book: Book, tag: u8, a: u64, b: u64) -> Pen
    requires shelved { Shelved book }
    requires tested { book_test book ≡ true }
    ensures { Wrote ink (answer_text (model_of book) tag a b) out.old pen out.new result }
{
    if tag < 0x70 {
        let offers = query::offers_only(book.offers);
        let asked = Wanted::asked(past(tag, 0x60), a, b);
        return put_list(out, pen, ink, offers, asked);
    }
    if tag == 0x74 {
        let words = query::lookup(book, 4, a, b);
        return put_schedule(out, pen, ink, words);
    }
    if tag == 0x7e {
        let sum = [query::active_of(book, a)];
        return rows::put_row(out, pen, ink, 0, &sum);
    }
    if tag == 0x7f {
        let g = query::negotiation_of(book, a);
        return put_negotiation(out, pen, ink, g);
    }
    let words = query::lookup(book, past(tag, 0x70), a, b);
    rows::put_reply(out, pen, ink, words)
}

// One walk over the questions, which writes the answers as it goes, to the number of the first line that is none. Without ink it only measures.
// The step is the length of the line that was read: there is no iterator of lines without storing them, and there is no heap.
fn tell(book: Book, s: &[u8], out: &mut [u8], ink: bool) -> Result<Pen, usize>
    requires shelved { Shelved book }
    requires tested { book_test book ≡ true }
    ensures { MatchResult result (λ p. Wrote ink (all_of (answer_to (model_of book)) (questions_in s.now).items) out.old (pen_at 0 false) out.new p × (false ≡ (questions_in s.now).bad)) (λ line. ((p : Pen) × Wrote ink (all_of (answer_to (model_of book)) (questions_in s.now).items) out.old (pen_at 0 false) out.new p) × ((true ≡ (questions_in s.now).bad) × (line ≡ fault_line 0 (questions_in s.now)))) }
{
    let mut pen = Pen {
        at: 0,
        short: false,
    };
    let mut at: usize = 0;
    let mut k: usize = 0;
    while at < s.len() {
        let x = text::reading::line_at(edition::FIRST, s, at, FIRST, PAST);
        if !x.ok {
            return Err(k + 1);
        }
        pen = put_answer(out, pen, ink, book, x.tag, x.values[0], x.values[1]);
        at = x.next;
        k += 1;
    }
    Ok(pen)
}

// The answers to the questions of a sound book where they fit, else the buffer stays as it is.
pub fn answers_sound(book: Book, questions: &[u8], out: &mut [u8]) -> Answer
    requires shelved { Shelved book }
    requires tested { book_test book ≡ true }
    ensures { (answered result ≡ answer_for (answers_of (model_of book) questions.now) out.old) × (out.new ≡ left_for (answers_of (model_of book) questions.now) out.old) }
{
    let pen = match tell(book, questions, out, false) {
        Ok(pen) => pen,
        Err(line) => return Answer::Malformed(line),
    };
    if pen.short {
        return Answer::Short;
    }
    match tell(book, questions, out, true) {
        Ok(end) => Answer::Done(end.at),
        Err(line) => Answer::Malformed(line),
    }
}

fn said(r: Answer) -> Result<usize, AskError>
    ensures { told_says result ≡ answered r }
{
    match r {
        Answer::Done(n) => Ok(n),
        Answer::Malformed(line) => Err(AskError::NoQuestion(line)),
        Answer::Short => Err(AskError::Short),
    }
}

// The answers to questions, one a line: the book is tested once, and each answer is that of the single query.
pub fn answers(book: Book, questions: &[u8], out: &mut [u8]) -> Result<usize, AskError>
    ensures { (told_says result ≡ told_for book questions.now out.old) × (out.new ≡ left_by book questions.now out.old) }
{
    if !book.sound() {
        return Err(AskError::Unsound);
    }
    said(answers_sound(book, questions, out))
}
