// The halves in turn, with their words counted and none written.
#![tactic(auto)]

ghost use Rattle.std.specs.Prelude.{◌≡◌, false, ◌-◌, ◌/◌, ◌%◌, ◌≤◌, length, take, drop};
ghost use Rattle.numbers.specs.Limits.{most_rounds};
ghost use Rattle.calls.specs.Half.{half};
ghost use Rattle.calls.specs.Role.{sum, halves_from};
ghost use Rattle.knowing.specs.Known.{known};
ghost use Rattle.role_counting.specs.Counted.{set_env, half_counted, counted_by};

use answers::Compiled;
use compiler::KnownAnswer;
use numbers::limits::MOST_PATTERN_ROWS;
use row_units::RowUnit;

pub mod checks;
pub mod row_units;

// Which object and named cells are set: cell 0 at the most significant bit.
#[derive(Clone, Copy)]
pub struct SetCells {
    pub objects: u64,
    pub named: u64,
}

// A role's answer, and the half that refuses.
#[derive(Clone, Copy)]
pub struct RoleCompiled {
    pub answer: Compiled,
    pub half: u32,
}

// The answer of the half between two rows, and which cells are set after it: more rows than a pattern may have are its own 1.
fn count_half<R: RowUnit>(
    rows: &[R],
    from: usize,
    to: usize,
    create: bool,
    kinds: &[u8],
    set: SetCells,
) -> KnownAnswer
    requires { (from ≤ to) × (to ≤ length (R.rows_of rows.now)) }
    ensures { record { answer = result.answer; objects = known result.objects; named = known result.named }
        ≡ half_counted (set_env set)
        (half create (take (to - from) (drop from (R.rows_of rows.now))) kinds.now (set_env set)) }
{
    if MOST_PATTERN_ROWS < to - from {
        return KnownAnswer {
            answer: Compiled::Limit,
            objects: set.objects,
            named: set.named,
        };
    }
    let mut buffer = compiler::no_words();
    R::compile_half(rows, from, to, create, kinds, set, &mut buffer)
}

// The words of all rounds, with INPUT and OUTPUT; or the first refusal and its half.
pub fn count_words<R: RowUnit>(
    rows: &[R],
    counts: &[u8],
    kinds: &[u8],
    set: SetCells,
) -> RoleCompiled
    requires { (length counts.now % 2 ≡ 0) × (length counts.now / 2 ≤ most_rounds) × (sum counts.now ≡ length (R.rows_of rows.now)) }
    ensures { result ≡ counted_by (halves_from 0 false kinds.now counts.now (R.rows_of rows.now) (set_env set)) }
{
    let mut create = false;
    let mut row: usize = 0;
    let mut set = set;
    let mut words: u32 = 0;
    for (half, &count) in counts.iter().enumerate() {
        let end = row + count as usize;
        let left = count_half(rows, row, end, create, kinds, set);
        let Compiled::Done(more) = left.answer else {
            return RoleCompiled {
                answer: left.answer,
                half: half as u32,
            };
        };
        create = !create;
        row = end;
        set = SetCells {
            objects: left.objects,
            named: left.named,
        };
        words = words + 1 + more;
    }
    RoleCompiled {
        answer: Compiled::Done(words),
        half: 0,
    }
}
