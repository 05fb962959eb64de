// The halves in turn, with their words written: nothing refuses, and the words fit.
#![tactic(auto)]

ghost use Rattle.std.specs.Prelude.{◌≡◌, false, ◌++◌, ◌+◌, ◌-◌, ◌*◌, ◌/◌, ◌%◌, ◌≤◌, length, take, drop};
ghost use Rattle.numbers.specs.Limits.{most_rounds};
ghost use Rattle.calls.specs.Half.{half};
ghost use Rattle.calls.specs.Frame.{framed};
ghost use Rattle.calls.specs.Role.{sum, ends_from, in_turn, halves_from};
ghost use Rattle.knowing.specs.Known.{known};
ghost use Rattle.role_counting.specs.Counted.{set_env};
ghost use Rattle.role_writing.specs.Written.{round_emitted, CodeFits, code_left, RoundsFit, rounds_in};

use answers::Compiled;
use code::frame::{INPUT, OUTPUT};
use role_counting::SetCells;
use role_counting::row_units::RowUnit;
use word_units::WordUnit;

pub mod word_units;

// Where words end, and which cells are set after them.
#[derive(Clone, Copy)]
pub struct Written {
    pub end: usize,
    pub set: SetCells,
}

// The words of the half between two rows, from a place on.
fn write_half<R: RowUnit, C: WordUnit<u32>>(
    rows: &[R],
    from: usize,
    to: usize,
    create: bool,
    kinds: &[u8],
    set: SetCells,
    place: usize,
    code: &mut [C],
) -> Written
    requires part { (from ≤ to) × (to ≤ length (R.rows_of rows.now)) }
    requires fits { CodeFits (λ words. words) place (length code.old / C.size)
        (half create (take (to - from) (drop from (R.rows_of rows.now))) kinds.now (set_env set)) }
    ensures { record { end = result.end; objects = known result.set.objects; named = known result.set.named; code = code.new }
        ≡ code_left C.size C.packed (λ words. words) place code.old
        (half create (take (to - from) (drop from (R.rows_of rows.now))) kinds.now (set_env set)) }
{
    let mut buffer = compiler::no_words();
    let left = R::compile_half(rows, from, to, create, kinds, set, &mut buffer);
    let Compiled::Done(count) = left.answer else {
        unreachable!();
    };
    C::put(code, place, &buffer[..count as usize]);
    Written {
        end: place + count as usize,
        set: SetCells {
            objects: left.objects,
            named: left.named,
        },
    }
}

// A round's words from a place on: INPUT, both halves, OUTPUT.
fn write_round<R: RowUnit, C: WordUnit<u32>>(
    rows: &[R],
    from: usize,
    middle: usize,
    to: usize,
    kinds: &[u8],
    set: SetCells,
    place: usize,
    code: &mut [C],
) -> Written
    requires parts { (from ≤ middle) × (middle ≤ to) × (to ≤ length (R.rows_of rows.now)) }
    requires fits { CodeFits framed place (length code.old / C.size)
        (round_emitted kinds.now (take (middle - from) (drop from (R.rows_of rows.now))) (take (to - middle) (drop middle (R.rows_of rows.now)))
        (set_env set)) }
    ensures { record { end = result.end; objects = known result.set.objects; named = known result.set.named; code = code.new }
        ≡ code_left C.size C.packed framed place code.old
        (round_emitted kinds.now (take (middle - from) (drop from (R.rows_of rows.now))) (take (to - middle) (drop middle (R.rows_of rows.now)))
        (set_env set)) }
{
    C::put(code, place, &[INPUT]);
    let matched = write_half(rows, from, middle, false, kinds, set, place + 1, code);
    let created = write_half(
        rows,
        middle,
        to,
        true,
        kinds,
        matched.set,
        matched.end,
        code,
    );
    C::put(code, created.end, &[OUTPUT]);
    Written {
        end: created.end + 1,
        set: created.set,
    }
}

// Round after round, and the words up to the end of each.
pub fn write_rounds<R: RowUnit, E: WordUnit<u16>, C: WordUnit<u32>>(
    rows: &[R],
    counts: &[u8],
    kinds: &[u8],
    set: SetCells,
    ends: &mut [E],
    code: &mut [C],
)
    requires counts_len { (length counts.now % 2 ≡ 0) × (length counts.now / 2 ≤ most_rounds) × (length ends.old ≡ E.size * (length counts.now / 2))
        × (sum counts.now ≡ length (R.rows_of rows.now)) }
    requires rounds_fit { RoundsFit (length code.old / C.size) (halves_from 0 false kinds.now counts.now (R.rows_of rows.now) (set_env set)) }
    ensures ends_after { ends.new ≡ E.packed (ends_from 0 (rounds_in (halves_from 0 false kinds.now counts.now (R.rows_of rows.now) (set_env set)))) }
    ensures code_after { code.new ≡ C.packed (in_turn (rounds_in (halves_from 0 false kinds.now counts.now (R.rows_of rows.now) (set_env set))))
        ++ drop (length (C.packed (in_turn (rounds_in (halves_from 0 false kinds.now counts.now (R.rows_of rows.now) (set_env set))))))
        code.old }
{
    let mut row: usize = 0;
    let mut words: usize = 0;
    let mut set = set;
    // Rounds are counted: of lent bytes an end is two elements, and no item of the slice.
    for round in 0..counts.len() / 2 {
        let middle = row + counts[2 * round] as usize;
        let end = middle + counts[2 * round + 1] as usize;
        let left = write_round(rows, row, middle, end, kinds, set, words, code);
        row = end;
        words = left.end;
        set = left.set;
        E::put(ends, round, &[words as u16]);
    }
}
