// An outcome as lines, into a lent slice.
#![tactic(auto)]

ghost use Rattle.std.specs.Prelude.{[], ◌∷◌, ◌++◌, ◌+◌, ◌<◌, ◌≤◌, length, take};
ghost use Rattle.text.specs.Written.{Wrote};
ghost use Rattle.numbers.specs.Limits.{variables, named_cells, most_code_words};
ghost use Rattle.printing.specs.Listing.{object_word, message_word, refused_line, code_lines, end_numbers, cell_lines, set_lines};

use answers::Ran;
use code::fields;
use numbers::limits::VARIABLES;
use stores::cells::UNSET;

// `refused NUMBER PLACE`.
pub fn refused(out: &mut [u8], number: u32, place: u32) -> usize
    ensures { Wrote (refused_line number place) out.old 0 out.new result }
{
    text::put_word_line(out, 0, b"refused", &[number, place])
}

// Place, operation, A, B, n.
fn code_line(out: &mut [u8], at: usize, place: usize, word: u32) -> usize
    requires { (at ≤ 65200) × (place < most_code_words) }
    ensures { Wrote (code_lines place (word ∷ [])) out.old at out.new result }
{
    let operation = word / fields::OPERATION;
    let a = word / fields::A % fields::OPERANDS;
    let b = word / fields::B % fields::OPERANDS;
    let n = word / fields::N % fields::COUNTS;
    text::put_line(out, at, &[place as u32, operation, a, b, n])
}

pub fn code_lines(out: &mut [u8], code: &[u32]) -> usize
    requires { length code.now ≤ most_code_words }
    ensures { Wrote (code_lines 0 code.now) out.old 0 out.new result }
{
    let mut next: usize = 0;
    for (place, &word) in code.iter().enumerate() {
        next = code_line(out, next, place, word);
    }
    next
}

// A cell that is not set has no line.
fn cell_line(out: &mut [u8], at: usize, word: &[u8], number: usize, cell: u16) -> usize
    requires { (at + length word.now ≤ 65000) × (number < variables) }
    ensures { Wrote (cell_lines word.now number (cell ∷ [])) out.old at out.new result }
{
    if cell == UNSET {
        return at;
    }
    text::put_word_line(out, at, word, &[number as u32, cell as u32])
}

fn cell_lines(out: &mut [u8], at: usize, word: &[u8], cells: &[u16]) -> usize
    requires { (at ≤ 60000) × (length word.now ≤ 1) × (length cells.now ≤ variables) }
    ensures { Wrote (cell_lines word.now 0 cells.now) out.old at out.new result }
{
    let mut next = at;
    for (number, &cell) in cells.iter().enumerate() {
        next = cell_line(out, next, word, number, cell);
    }
    next
}

// Each set object cell, then each set named cell; scratch never.
fn store_lines(out: &mut [u8], at: usize, objects: &[u16], messages: &[u16]) -> usize
    requires { (at ≤ 57000) × (length objects.now ≤ variables) × (named_cells ≤ length messages.now) }
    ensures { Wrote (cell_lines object_word 0 objects.now ++ cell_lines message_word 0 (take named_cells messages.now)) out.old at out.new result }
{
    let next = cell_lines(out, at, b"o", objects);
    cell_lines(out, next, b"m", &messages[..VARIABLES])
}

// The end line does not look at the cells.
fn end_line(
    out: &mut [u8],
    at: usize,
    answer: Ran,
    used: u32,
    counter: u32,
    accumulator: u32,
) -> usize
    requires { at ≤ 60000 }
    ensures { Wrote (end_numbers answer used counter accumulator) out.old at out.new result }
{
    let number = answer.number();
    let place = answer.place();
    let reason = answer.reason();
    let numbers = [number, place, reason, used, counter, accumulator];
    text::put_word_line(out, at, b"end", &numbers)
}

// The outcome of a run of code: its words, the end, and after answer 0 the cells.
pub fn ran(
    out: &mut [u8],
    code: &[u32],
    answer: Ran,
    objects: &[u16],
    messages: &[u16],
    used: u32,
    counter: u32,
    accumulator: u32,
) -> usize
    requires { (length code.now ≤ most_code_words) × (length objects.now ≤ variables) × (named_cells ≤ length messages.now) }
    ensures { Wrote (code_lines 0 code.now ++ end_numbers answer used counter accumulator ++ set_lines answer objects.now messages.now)
        out.old 0 out.new result }
{
    let after_code = code_lines(out, code);
    let after_end = end_line(out, after_code, answer, used, counter, accumulator);
    match answer {
        Ran::Done(_) => store_lines(out, after_end, objects, messages),
        _ => after_end,
    }
}
