// The words of the lines, in one pass over the text.
ghost use Rattle.std.specs.Prelude.{◌≡◌, [], ◌∷◌, ◌^◌, ◌≤◌, length, drop, set};
ghost use Rattle.std.proofs.lemmas.List.Edits.{sets};
ghost use Rattle.word.specs.Fields.{join};
ghost use Rattle.text.specs.Readers.{text_lines};
ghost use Rattle.code.specs.Instruction.{word_widths};
ghost use Rattle.code_reading.specs.Reading.{read_word, bad_line, read_words};
ghost use Rattle.code_reading.specs.LineAnswers.{ReadsWord, lines_read};

use code::fields;
use text::reading::{Numbers, read_line};

// What fits the fields of a word.
const MOST_OPERATION: u64 = 31;

const MOST_OPERAND: u64 = 255;

const MOST_COUNT: u64 = 7;

// The lowest line that is not good.
#[derive(Clone, Copy)]
pub struct BadLine(pub usize);

// Operation, A, B and n in their fields; the line's own number comes before them.
fn packed(numbers: Numbers) -> u32
    requires { (numbers.1 ≤ 31) × (numbers.2 ≤ 255) × (numbers.3 ≤ 255) × (numbers.4 ≤ 7) }
    ensures { result ≡ join word_widths (numbers.1 ∷ numbers.2 ∷ numbers.3 ∷ numbers.4 ∷ 0 ∷ []) }
{
    numbers.1 as u32 * fields::OPERATION
        + numbers.2 as u32 * fields::A
        + numbers.3 as u32 * fields::B
        + numbers.4 as u32 * fields::N
}

// The word of the line that begins at a place of the text, and the place behind it, if the line is good.
fn word_at(text: &[u8], at: usize, line: u64) -> Option<(u32, usize)>
    requires { line ≤ 10 ^ 18 }
    ensures { ReadsWord text.now (read_word line (drop at text.now)) result }
{
    let most = Numbers(line, MOST_OPERATION, MOST_OPERAND, MOST_OPERAND, MOST_COUNT);
    let (numbers, next) = read_line(text, at, most)?;
    if numbers.0 != line {
        return None;
    }
    Some((packed(numbers), next))
}

// A word past the slice is no word.
fn keep(words: &mut [u32], at: usize, word: u32)
    ensures { words.new ≡ set words.old at word }
{
    if at < words.len() {
        words[at] = word;
    }
}

// How many lines there are; where the next one begins is known when a line is read. A line is at least ten bytes, so that the number of lines stays far below what a number holds.
pub fn read_words(text: &[u8], words: &mut [u32]) -> Result<usize, BadLine>
    ensures { (result ≡ lines_read (bad_line text.now) (length (text_lines text.now)))
        × (words.new ≡ sets words.old 0 (read_words text.now)) }
{
    let mut lines: usize = 0;
    let mut at: usize = 0;
    while at < text.len() {
        let Some((word, next)) = word_at(text, at, lines as u64) else {
            return Err(BadLine(lines));
        };
        keep(words, lines, word);
        lines += 1;
        at = next;
    }
    Ok(lines)
}
