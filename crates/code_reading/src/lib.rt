// Code lines, as the listing prints them, read back into code words: 15 over all lines, then 1, 9 and 8.
#![tactic(auto)]

mod answer;
pub mod lines;

ghost use Rattle.std.specs.Prelude.{◌≡◌, ◌≤◌, length, take};
ghost use Rattle.numbers.specs.Limits.{most_code_words};
ghost use Rattle.answers.specs.First.{first};
ghost use Rattle.code_reading.specs.Reading.{read_into, word_refusals, comes_to, read_code};
ghost use Rattle.code_reading.specs.LineAnswers.{looked_of};

pub use answer::ReadBack;
use delivery::copy;
pub use delivery::no_words;
use lines::{BadLine, read_words};
use numbers::limits::{MOST_CODE_WORDS, VARIABLES};
use operands::first_bad_word;

// 1 and 9 of so many good lines, whose first words are given; or how many words to deliver.
pub fn look_words(lines: usize, words: &[u32], kinds: &[u8]) -> Result<usize, ReadBack>
    requires { most_code_words ≤ length words.now }
    ensures { result ≡ looked_of lines (first (word_refusals lines (take lines words.now) kinds.now)) }
{
    if MOST_CODE_WORDS < lines {
        return Err(ReadBack::Limit);
    }
    if kinds.len() != VARIABLES {
        return Err(ReadBack::Limit);
    }
    let read = &words[..lines];
    if let Some(word) = first_bad_word(kinds, read) {
        return Err(ReadBack::BadWord(word));
    }
    Ok(lines)
}

// 8 where the words do not fit; words behind them stay. As `delivery::deliver`, but for the type of the answer.
fn fill(words: &[u32], code: &mut [u32]) -> ReadBack
    requires { length words.now ≤ most_code_words }
    ensures { record { answer = result; code = code.new } ≡ read_into words.now code.old }
{
    let count = words.len() as u32;
    if code.len() < words.len() {
        return ReadBack::CodeTooShort(count);
    }
    copy(words, code);
    ReadBack::Done(count)
}

fn deliver_words(lines: usize, words: &[u32], kinds: &[u8], code: &mut [u32]) -> ReadBack
    requires { most_code_words ≤ length words.now }
    ensures { record { answer = result; code = code.new }
        ≡ comes_to (first (word_refusals lines (take lines words.now) kinds.now)) (take lines words.now) code.old }
{
    match look_words(lines, words, kinds) {
        Ok(count) => fill(&words[..count], code),
        Err(answer) => answer,
    }
}

pub fn read_code(text: &[u8], kinds: &[u8], code: &mut [u32]) -> ReadBack
    ensures { record { answer = result; code = code.new } ≡ read_code text.now kinds.now code.old }
{
    let mut words = no_words();
    match read_words(text, &mut words) {
        Ok(lines) => deliver_words(lines, &words, kinds, code),
        Err(BadLine(line)) => ReadBack::BadLine(line as u64),
    }
}
