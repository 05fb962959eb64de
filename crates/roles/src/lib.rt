// Compile a role: its checks, then each half in turn. Every half is compiled twice, to count the words and to write them: so that a
// refusal changes nothing, and no buffer is longer than a half's code.
#![tactic(auto)]

ghost use Rattle.std.specs.Prelude.{◌≡◌};
ghost use Rattle.calls.specs.Role.{role};

use answers::Compiled;
pub use role_counting::RoleCompiled;
use role_counting::checks::role_fits;
use role_counting::{SetCells, count_words};
use role_writing::write_rounds;
pub use round_parts::round_part;

pub fn compile_role(
    rows: &[u64],
    counts: &[u8],
    kinds: &[u8],
    objects: &[u16],
    named: &[u16],
    ends: &mut [u16],
    code: &mut [u32],
) -> RoleCompiled
    ensures { record { answer = result.answer; half = result.half; ends = ends.new; code = code.new }
        ≡ role ends.old code.old (record {
          rows = rows.now;
          counts = counts.now;
          kinds = kinds.now;
          objects = objects.now;
          named = named.now;
        }) }
{
    if !role_fits(
        rows.len(),
        counts,
        kinds.len(),
        objects.len(),
        named.len(),
        ends.len(),
    ) {
        return RoleCompiled {
            answer: Compiled::Limit,
            half: 0,
        };
    }
    let set = SetCells {
        objects: compiler::set_cells(objects),
        named: compiler::set_cells(named),
    };
    let counted = count_words(rows, counts, kinds, set);
    let Compiled::Done(words) = counted.answer else {
        return counted;
    };
    if code.len() < words as usize {
        return RoleCompiled {
            answer: Compiled::CodeTooShort(words),
            half: 0,
        };
    }
    write_rounds(rows, counts, kinds, set, ends, code);
    counted
}
