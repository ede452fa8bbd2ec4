// Questions about the book of a journal: in text, one a line, or lookups in words.
ghost use Rattle.std.specs.Prelude.{◌≡◌};
ghost use Rattle.asking.specs.Questions.{questions_in};
ghost use Rattle.text.specs.Journal.{fault_line};
ghost use Rattle.solgaverna.specs.Answers.{code, of_book, text_for, words_for};

use crate::{book_of, code, line, refused, sized};
use book::Book;
use refusal::Refusal;

// The answers to questions, one a line: how many bytes they are.
#[unsafe(no_mangle)]
pub extern "C" fn solgaverna_ask(journal: &[u8], questions: &[u8], out: &mut [u8]) -> u64
    ensures { (result, out.new) ≡ of_book journal.now out.old (text_for questions.now out.old) }
{
    let Ok(book) = book_of(journal) else {
        return refused(refusal::JOURNAL_MALFORMED);
    };
    let r = asking::answers_sound(book, questions, out);
    sized(r)
}

// The number of the first line that is no question, 0 where there is none. Which lines are questions no book decides: a fresh one is asked.
#[unsafe(no_mangle)]
pub extern "C" fn solgaverna_faulty_question(questions: &[u8]) -> u64
    ensures { result ≡ fault_line 0 (questions_in questions.now) }
{
    let mut out: [u8; 1] = [0; 1];
    let book = Book::of_edition(edition::FIRST);
    let r = asking::answers_sound(book, questions, &mut out);
    line(r)
}

fn looked_up(journal: &[u8], questions: &[u64], out: &mut [u64]) -> Result<usize, Refusal>
    ensures { (code result, out.new) ≡ of_book journal.now out.old (words_for questions.now out.old) }
{
    let book = book_of(journal)?;
    query::answers(book, questions, out)
}

// Lookups, three words each, and twelve words for each answer: how many were answered.
#[unsafe(no_mangle)]
pub extern "C" fn solgaverna_answers(journal: &[u8], questions: &[u64], out: &mut [u64]) -> u64
    ensures { (result, out.new) ≡ of_book journal.now out.old (words_for questions.now out.old) }
{
    code(looked_up(journal, questions, out))
}
