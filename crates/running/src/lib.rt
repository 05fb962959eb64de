// Run: its checks in their order, then a step for each word on copies of the cells.
#![tactic(auto)]

ghost use Rattle.std.specs.Prelude.{◌≡◌};
ghost use Rattle.calls.specs.Run.{run};
ghost use Rattle.looking.specs.Found.{used_with};
ghost use Rattle.looking.specs.Front.{Front};

use answers::Ran;
use cells::copied;
use execution::Stepped;
use machine::Registers;
use numbers::TermRow;
use numbers::limits::{MESSAGE_CELLS, VARIABLES};
use stores::cells::Cells;

pub mod cells;

// The answer, with the used rows, accumulator and name counter afterwards; used rows are 0 with answer 1.
#[derive(Clone, Copy)]
pub struct Ended {
    pub answer: Ran,
    pub used: u16,
    pub accumulator: u32,
    pub counter: u32,
}

// What a run leaves, with its cells.
#[derive(Drop)]
pub struct Outcome {
    pub answer: Ran,
    pub cells: Cells,
    pub used: u16,
    pub accumulator: u32,
    pub counter: u32,
}

// Run with the cells by value: those on entry come back unless it is done. The rows behind the front are zero, so that they are not looked at.
pub fn run_cells(
    kinds: &[u8],
    cells: Cells,
    certificates: &[u64],
    accumulator: u32,
    terms: &mut [u64],
    front: usize,
    counter: u32,
    code: &[u32],
) -> Outcome
    requires { Front terms.old front }
    ensures { (record { answer = result.answer; objects = result.cells.objects; messages = result.cells.messages; accumulator = result.accumulator; terms = terms.new; counter = result.counter }
        ≡ run (record {
          kinds = kinds.now;
          objects = cells.objects;
          messages = cells.messages;
          certificates = certificates.now;
          accumulator = accumulator;
          terms = terms.old;
          counter = counter;
        }) code.now)
        × (result.used ≡ used_with result.answer terms.new) }
{
    let found = looking::look(
        kinds,
        &cells.objects,
        &cells.messages,
        certificates,
        accumulator,
        &terms[..front],
        counter,
        code,
    );
    let used = match found {
        Ok(used) => used,
        Err(refused) => {
            return Outcome {
                answer: refused.answer,
                cells,
                used: refused.used,
                accumulator,
                counter,
            };
        }
    };
    let start = Registers {
        place: 0,
        accumulator: TermRow(accumulator as u16),
        used,
        counter,
    };
    let mut new_cells = cells;
    let Stepped { answer, registers } = execution::steps(
        start,
        kinds,
        &mut new_cells,
        certificates,
        terms,
        code,
    );
    let Ran::Done(_) = answer else {
        return Outcome {
            answer,
            cells,
            used: registers.used,
            accumulator: registers.accumulator.0 as u32,
            counter: registers.counter,
        };
    };
    Outcome {
        answer,
        cells: new_cells,
        used: registers.used,
        accumulator: registers.accumulator.0 as u32,
        counter: registers.counter,
    }
}

pub fn run(
    kinds: &[u8],
    objects: &mut [u16],
    messages: &mut [u16],
    certificates: &[u64],
    accumulator: u32,
    terms: &mut [u64],
    counter: u32,
    code: &[u32],
) -> Ended
    ensures { (record { answer = result.answer; objects = objects.new; messages = messages.new; accumulator = result.accumulator; terms = terms.new; counter = result.counter }
        ≡ run (record {
          kinds = kinds.now;
          objects = objects.old;
          messages = messages.old;
          certificates = certificates.now;
          accumulator = accumulator;
          terms = terms.old;
          counter = counter;
        }) code.now)
        × (result.used ≡ used_with result.answer terms.new) }
{
    let whole = (objects.len() == VARIABLES) & (messages.len() == MESSAGE_CELLS);
    if !whole {
        return Ended {
            answer: Ran::Limit,
            used: 0,
            accumulator,
            counter,
        };
    }
    let lent = Cells {
        objects: copied(objects),
        messages: copied(messages),
    };
    let front = terms.len();
    let Outcome {
        answer,
        cells,
        used,
        accumulator,
        counter,
    } = run_cells(
        kinds,
        lent,
        certificates,
        accumulator,
        terms,
        front,
        counter,
        code,
    );
    objects.copy_from_slice(&cells.objects);
    messages.copy_from_slice(&cells.messages);
    Ended {
        answer,
        used,
        accumulator,
        counter,
    }
}
