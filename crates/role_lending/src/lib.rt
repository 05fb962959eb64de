// Compile a role over lent bytes: `role_counting` unpacks the rows half by half, and `role_writing` packs each round's words where they belong.
#![tactic(auto)]

ghost use Rattle.std.specs.Prelude.{◌≡◌, ◌&&◌, ◌*◌, ◌%◌, eqb};
ghost use Rattle.numbers.specs.Limits.{variables};
ghost use Rattle.role_lending.specs.RoleEntry.{role_numbers, role_entry};

use answers::Compiled;
use lending::arrays;
use numbers::limits::VARIABLES;
use role_counting::{SetCells, count_words};
use role_writing::write_rounds;

#[repr(C)]
#[derive(Clone, Copy)]
pub struct RoleAnswer {
    pub number: u32,
    pub place: u32,
    pub half: u32,
}

// Whole elements, and as many cells as there are variables.
fn lengths_fit(rows: usize, objects: usize, named: usize, ends: usize, code: usize) -> bool
    ensures { result ≡ (eqb (rows % 8) 0 && eqb objects (2 * variables) && eqb named (2 * variables) && eqb (ends % 2) 0 && eqb (code % 4) 0) }
{
    (rows % 8 == 0)
        & (objects == 2 * VARIABLES)
        & (named == 2 * VARIABLES)
        & (ends % 2 == 0)
        & (code % 4 == 0)
}

fn numbers(answer: Compiled, half: u32) -> RoleAnswer
    ensures { result ≡ role_numbers answer half }
{
    RoleAnswer {
        number: answer.number(),
        place: answer.place(),
        half,
    }
}

pub fn compile_role(
    rows: &[u8],
    counts: &[u8],
    kinds: &[u8],
    objects: &[u8],
    named: &[u8],
    ends: &mut [u8],
    code: &mut [u8],
) -> RoleAnswer
    ensures { record { answer = result; ends = ends.new; code = code.new }
        ≡ role_entry ends.old code.old (record {
          rows = rows.now;
          counts = counts.now;
          kinds = kinds.now;
          objects = objects.now;
          named = named.now;
        }) }
{
    if !lengths_fit(
        rows.len(),
        objects.len(),
        named.len(),
        ends.len(),
        code.len(),
    ) {
        return numbers(Compiled::Limit, 0);
    }
    if !role_counting::checks::role_fits(
        rows.len() / 8,
        counts,
        kinds.len(),
        objects.len() / 2,
        named.len() / 2,
        ends.len() / 2,
    ) {
        return numbers(Compiled::Limit, 0);
    }
    let object_cells = arrays::cells::<VARIABLES>(objects);
    let named_cells = arrays::cells::<VARIABLES>(named);
    let set = SetCells {
        objects: compiler::set_cells(&object_cells),
        named: compiler::set_cells(&named_cells),
    };
    let counted = count_words(rows, counts, kinds, set);
    let Compiled::Done(words) = counted.answer else {
        return numbers(counted.answer, counted.half);
    };
    if code.len() / 4 < words as usize {
        return numbers(Compiled::CodeTooShort(words), 0);
    }
    write_rounds(rows, counts, kinds, set, ends, code);
    numbers(counted.answer, counted.half)
}
