// The walk over a pattern that passed the checks.
ghost use Rattle.std.specs.Prelude.{◌≡◌};
ghost use Rattle.std.specs.Prelude.{None};
ghost use Rattle.answers.specs.First.{first};
ghost use Rattle.knowing.specs.Known.{known};
ghost use Rattle.emission.specs.Budget.{Row};
ghost use Rattle.calls.specs.Half.{known_refusals};
ghost use Rattle.compiler.specs.CompileKnown.{no_words};
ghost use Rattle.compiler.specs.Buffer.{EmitsRow, Leaves};

use super::KnownAnswer;
use answers::Compiled;
use knowing::{Code, Emission, emission_from, found};
use layout::{Kinds, Rows, all_kinds, lay_rows, no_rows};

// The code of figure 6 for creating, of figure 5 for matching.
fn emit_row(
    create: bool,
    rows: &Rows,
    kinds: &Kinds,
    buffer: &mut Code,
    emission: &mut Emission,
    row: u8,
)
    requires { Row rows.now row emission.old }
    ensures { EmitsRow create rows.now kinds.now row emission.old buffer.old emission.new buffer.new }
{
    if create {
        creating::create_row(rows, kinds, buffer, emission, row);
    } else {
        matching::match_row(rows, buffer, emission, row);
    }
}

// After a refusal no word is left.
pub fn clear(buffer: &mut Code)
    ensures { buffer.new ≡ no_words }
{
    buffer.fill(0);
}

pub fn walk(
    create: bool,
    pattern: &[u64],
    kinds: &[u8],
    objects: u64,
    named: u64,
    buffer: &mut Code,
) -> Result<KnownAnswer, Compiled>
    requires { first (known_refusals create pattern.now kinds.now (known objects)) ≡ None }
    ensures { Leaves create pattern.now kinds.now (known objects) (known named) buffer.old result buffer.new }
{
    let mut rows = no_rows();
    lay_rows(pattern, &mut rows);
    let root = (pattern.len() - 1) as u8;
    let mut emission = emission_from(objects, named);
    let all = all_kinds(kinds);
    emit_row(create, &rows, &all, buffer, &mut emission, root);
    found(emission)?;
    Ok(KnownAnswer {
        answer: Compiled::Done(emission.written as u32),
        objects: emission.objects,
        named: emission.raws,
    })
}
