// Straight from the pattern: compile's refusals, then run's, then the rules of figures 2 and 3 by a walk over the pattern's rows.
#![tactic(auto)]

ghost use Rattle.std.specs.Prelude.{◌≡◌};
ghost use Rattle.calls.specs.Direct.{direct};

use answers::Direct;
use checks::look;
use numbers::limits::VARIABLES;
use running::cells::copied;
use walking::walk;

mod checks;
mod walking;

// The answer, with the accumulator and the name counter afterwards.
#[derive(Clone, Copy)]
pub struct Tried {
    pub answer: Direct,
    pub accumulator: u32,
    pub counter: u32,
}

// The same with the cells.
#[derive(Drop)]
pub struct Outcome {
    pub answer: Direct,
    pub objects: [u16; VARIABLES],
    pub named: [u16; VARIABLES],
    pub accumulator: u32,
    pub counter: u32,
}

// With the cells by value: those on entry come back unless it is done.
pub fn direct_cells(
    create: bool,
    pattern: &[u64],
    kinds: &[u8],
    objects: [u16; VARIABLES],
    named: [u16; VARIABLES],
    certificates: &[u64],
    accumulator: u32,
    terms: &mut [u64],
    counter: u32,
) -> Outcome
    ensures { record { answer = result.answer; objects = result.objects; named = result.named; accumulator = result.accumulator; terms = terms.new; counter = result.counter }
        ≡ direct create pattern.now (record {
          kinds = kinds.now;
          objects = objects;
          messages = named;
          certificates = certificates.now;
          accumulator = accumulator;
          terms = terms.old;
          counter = counter;
        }) }
{
    let looked = look(
        create,
        pattern,
        kinds,
        &objects,
        &named,
        certificates,
        accumulator,
        terms,
        counter,
    );
    match looked {
        Err(answer) => Outcome {
            answer,
            objects,
            named,
            accumulator,
            counter,
        },
        Ok(used) => walk(
            create,
            pattern,
            kinds,
            objects,
            named,
            certificates,
            accumulator,
            terms,
            used,
            counter,
        ),
    }
}

pub fn direct(
    create: bool,
    pattern: &[u64],
    kinds: &[u8],
    objects: &mut [u16],
    named: &mut [u16],
    certificates: &[u64],
    accumulator: u32,
    terms: &mut [u64],
    counter: u32,
) -> Tried
    ensures { record { answer = result.answer; objects = objects.new; named = named.new; accumulator = result.accumulator; terms = terms.new; counter = result.counter }
        ≡ direct create pattern.now (record {
          kinds = kinds.now;
          objects = objects.old;
          messages = named.old;
          certificates = certificates.now;
          accumulator = accumulator;
          terms = terms.old;
          counter = counter;
        }) }
{
    if objects.len() != VARIABLES || named.len() != VARIABLES {
        return Tried {
            answer: Direct::Limit,
            accumulator,
            counter,
        };
    }
    let left = direct_cells(
        create,
        pattern,
        kinds,
        copied(objects),
        copied(named),
        certificates,
        accumulator,
        terms,
        counter,
    );
    objects.copy_from_slice(&left.objects);
    named.copy_from_slice(&left.named);
    Tried {
        answer: left.answer,
        accumulator: left.accumulator,
        counter: left.counter,
    }
}
