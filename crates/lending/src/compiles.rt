// Compile over lent bytes: what fits, and words that come to the code's bytes.
ghost use Rattle.std.specs.Prelude.{◌≡◌, ◌&&◌, ◌*◌, ◌/◌, ◌%◌, ◌≤◌, true, eqb, leb, length};
ghost use Rattle.word.specs.Bytes.{elements};
ghost use Rattle.numbers.specs.Limits.{variables, named_cells, most_pattern_rows, most_code_words};
ghost use Rattle.calls.specs.Compile.{written};
ghost use Rattle.lending.specs.Entries.{compiled_numbers, compile_spelled};

use super::CompileAnswer;
use answers::Compiled;
use numbers::limits::{MOST_PATTERN_ROWS, VARIABLES};

// A direction, whole elements, and no more of them than there is room for.
pub fn lengths_fit(create: u8, pattern: usize, objects: usize, named: usize, code: usize) -> bool
    ensures fits { result ≡ (leb create 1 && eqb (pattern % 8) 0 && leb pattern (8 * most_pattern_rows) && eqb objects (2 * variables) && eqb named (2 * named_cells) && eqb (code % 4) 0) }
    ensures room { result ≡ true → (pattern / 8 ≤ most_pattern_rows) × (objects ≡ 2 * variables) × (named ≡ 2 * named_cells) × (code % 4 ≡ 0) }
{
    (create <= 1)
        & (pattern % 8 == 0)
        & (pattern <= 8 * MOST_PATTERN_ROWS)
        & (objects == 2 * VARIABLES)
        & (named == 2 * VARIABLES)
        & (code % 4 == 0)
}

// Not a From, as for a round: the numbers of a run and of a role take more than the answer, and all four read alike.
pub fn numbers(answer: Compiled) -> CompileAnswer
    ensures { result ≡ compiled_numbers answer }
{
    CompileAnswer {
        number: answer.number(),
        place: answer.place(),
    }
}

// 8 where the words do not fit; bytes past them stay.
pub fn deliver(words: &[u32], code: &mut [u8]) -> CompileAnswer
    requires { (length words.now ≤ most_code_words) × (length code.old % 4 ≡ 0) }
    ensures { record { answer = result; code = code.new } ≡ compile_spelled (written words.now (elements 4 code.old)) }
{
    let count = words.len();
    if code.len() / 4 < count {
        return numbers(Compiled::CodeTooShort(count as u32));
    }
    word::pack_quads(words, &mut code[..4 * count]);
    numbers(Compiled::Done(count as u32))
}
