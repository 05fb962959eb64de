// Compile: its checks in their order, then the walk, then the words into the lent slice.
#![tactic(auto)]

ghost use Rattle.std.specs.Prelude.{◌≡◌};
ghost use Rattle.calls.specs.Compile.{compile};
ghost use Rattle.knowing.specs.Known.{known};
ghost use Rattle.compiler.specs.CompileKnown.{compile_known};
ghost use Rattle.compiler.specs.Buffer.{outcome_of, Leaves};

use answers::Compiled;
use delivery::deliver;
pub use delivery::{no_words, used};
use knowing::Code;
pub use knowing::set_cells;
pub use looking::look;
use numbers::limits::VARIABLES;
use walking::{clear, walk};

mod looking;
mod walking;

// An answer, and which object and named cells are set afterwards: cell 0 at the most significant bit.
// A struct, as compile_known's promise says the cells after a refusal too.
#[derive(Clone, Copy)]
pub struct KnownAnswer {
    pub answer: Compiled,
    pub objects: u64,
    pub named: u64,
}

// The checks and then the walk.
fn emit(
    create: bool,
    pattern: &[u64],
    kinds: &[u8],
    objects: u64,
    named: u64,
    buffer: &mut Code,
) -> Result<KnownAnswer, Compiled>
    ensures { Leaves create pattern.now kinds.now (known objects) (known named) buffer.old result buffer.new }
{
    look(create, pattern, kinds, objects)?;
    walk(create, pattern, kinds, objects, named, buffer)
}

// `create` is the direction, a Bool in each theorem: figure 6 where it is true, else figure 5.
// Compile from which cells are set, into a buffer that is long enough for every code. A refusal leaves no word in it.
pub fn compile_known(
    create: bool,
    pattern: &[u64],
    kinds: &[u8],
    objects: u64,
    named: u64,
    buffer: &mut Code,
) -> KnownAnswer
    ensures { outcome_of result buffer.new ≡ compile_known create pattern.now kinds.now (known objects) (known named) buffer.old }
{
    match emit(create, pattern, kinds, objects, named, buffer) {
        Ok(left) => left,
        Err(answer) => {
            clear(buffer);
            KnownAnswer {
                answer: answer,
                objects: objects,
                named: named,
            }
        }
    }
}

pub fn compile(
    create: bool,
    pattern: &[u64],
    kinds: &[u8],
    objects: &[u16],
    named: &[u16],
    code: &mut [u32],
) -> Compiled
    ensures { record { answer = result; code = code.new }
        ≡ compile create pattern.now kinds.now objects.now named.now code.old }
{
    if (objects.len() != VARIABLES) | (named.len() != VARIABLES) {
        return Compiled::Limit;
    }
    let mut buffer = no_words();
    let left = compile_known(
        create,
        pattern,
        kinds,
        set_cells(objects),
        set_cells(named),
        &mut buffer,
    );
    let Compiled::Done(count) = left.answer else {
        return left.answer;
    };
    deliver(&buffer[..count as usize], code)
}
