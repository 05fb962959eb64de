// Reading code lines back over lent bytes: the words packed into the bytes that C lent for them.
#![tactic(auto)]

ghost use Rattle.std.specs.Prelude.{◌≡◌, ◌%◌, ◌≤◌, length, take};
ghost use Rattle.word.specs.Bytes.{whole, elements};
ghost use Rattle.numbers.specs.Limits.{most_code_words};
ghost use Rattle.answers.specs.First.{first};
ghost use Rattle.code_reading.specs.Reading.{read_into, word_refusals};
ghost use Rattle.read_lending.specs.ReadEntry.{read_back_numbers, read_spelled, bytes_read, read_entry};

use code_reading::lines::{BadLine, read_words};
use code_reading::{ReadBack, look_words, no_words};

#[repr(C)]
#[derive(Clone, Copy)]
pub struct ReadAnswer {
    pub number: u32,
    pub place: u64,
}

fn numbers(answer: ReadBack) -> ReadAnswer
    ensures { result ≡ read_back_numbers answer }
{
    ReadAnswer {
        number: answer.number(),
        place: answer.place(),
    }
}

// 8 where the words do not fit; bytes behind them stay.
fn pack(words: &[u32], code: &mut [u8]) -> ReadAnswer
    requires { (length words.now ≤ most_code_words) × (length code.old % 4 ≡ 0) }
    ensures { record { answer = result; code = code.new } ≡ read_spelled (read_into words.now (elements 4 code.old)) }
{
    let left = lending::compiles::deliver(words, code);
    ReadAnswer {
        number: left.number,
        place: left.place as u64,
    }
}

// 1, 9 and 8 of so many good lines, whose first words are given.
fn deliver_bytes(lines: usize, words: &[u32], kinds: &[u8], code: &mut [u8]) -> ReadAnswer
    requires { most_code_words ≤ length words.now }
    ensures { record { answer = result; code = code.new }
        ≡ bytes_read (whole 4 code.old) (first (word_refusals lines (take lines words.now) kinds.now)) (take lines words.now) code.old }
{
    if code.len() % 4 != 0 {
        return numbers(ReadBack::Limit);
    }
    match look_words(lines, words, kinds) {
        Ok(count) => pack(&words[..count], code),
        Err(answer) => numbers(answer),
    }
}

pub fn read_listing(text: &[u8], kinds: &[u8], code: &mut [u8]) -> ReadAnswer
    ensures { record { answer = result; code = code.new } ≡ read_entry text.now kinds.now code.old }
{
    let mut words = no_words();
    match read_words(text, &mut words) {
        Ok(lines) => deliver_bytes(lines, &words, kinds, code),
        Err(BadLine(line)) => numbers(ReadBack::BadLine(line as u64)),
    }
}
