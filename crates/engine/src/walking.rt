// The walk from the pattern's root, on copies of the cells.
ghost use Rattle.std.specs.Prelude.{◌≡◌};
ghost use Rattle.patterns.specs.Standing.{Stands};
ghost use Rattle.machine.specs.Machine.{slices, Within};
ghost use Rattle.calls.specs.CompileThenRun.{handed_back};
ghost use Rattle.engine.specs.Walking.{ended_as, WalksRow, Walkable, walked_from};

use super::Outcome;
use answers::Direct;
use execution::clear;
use layout::{lay_rows, no_rows};
use numbers::TermRow;
use numbers::limits::VARIABLES;
use walks::{Cells, Ended, Ground, Walk, Walked};

// A creation makes its message, a match has the message in hand.
fn walk_row(
    create: bool,
    ground: &Ground<'_>,
    terms: &mut [u64],
    cells: &mut Cells,
    start: Walk,
    row: u8,
) -> Walked
    requires stands { Stands ground.now.rows.now row }
    requires within { Within terms.old start.used }
    ensures { WalksRow create ground.now.rows.now ground.now.kinds.now row start
        (slices cells.old.objects cells.old.named terms.old ground.now.certificates.now) result
        (slices cells.new.objects cells.new.named terms.new ground.now.certificates.now) }
{
    if create {
        walk_creating::create_row(ground, terms, cells, start, row)
    } else {
        walk_matching::match_row(ground, terms, cells, start, row)
    }
}

// A creation hands back its message, a match the accumulator that it was given.
fn handed_back(create: bool, given: u32, message: TermRow) -> u32
    ensures { result ≡ handed_back create given message.0 }
{
    if create { message.0 as u32 } else { given }
}

// How a walk has ended, as the engine answers it.
fn ended_as(ended: Ended) -> Direct
    ensures { result ≡ ended_as ended }
{
    match ended {
        Ended::Stuck(row, reason) => Direct::Stuck(row as u32, reason),
        Ended::NoRoom(row) => Direct::NoRoom(row as u32),
    }
}

// What does not end gives its rows back, and the cells on entry.
pub fn walk(
    create: bool,
    pattern: &[u64],
    kinds: &[u8],
    objects: [u16; VARIABLES],
    named: [u16; VARIABLES],
    certificates: &[u64],
    accumulator: u32,
    terms: &mut [u64],
    used: u16,
    counter: u32,
) -> Outcome
    requires { Walkable create pattern.now (record {
      kinds = kinds.now;
      objects = objects;
      messages = named;
      certificates = certificates.now;
      accumulator = accumulator;
      terms = terms.old;
      counter = counter;
    }) used }
    ensures { record { answer = result.answer; objects = result.objects; named = result.named; accumulator = result.accumulator; terms = terms.new; counter = result.counter }
        ≡ walked_from create pattern.now (record {
          kinds = kinds.now;
          objects = objects;
          messages = named;
          certificates = certificates.now;
          accumulator = accumulator;
          terms = terms.old;
          counter = counter;
        }) }
{
    let mut rows = no_rows();
    lay_rows(pattern, &mut rows);
    let root = (pattern.len() - 1) as u8;
    let start = Walk {
        message: TermRow(accumulator as u16),
        used,
        counter,
    };
    let from = used as usize;
    let ground = Ground {
        rows: &rows,
        kinds,
        certificates,
    };
    let mut cells = Cells { objects, named };
    let after = match walk_row(create, &ground, terms, &mut cells, start, root) {
        Ok(after) => after,
        Err(ended) => {
            let to = terms.len();
            clear(terms, from, to);
            return Outcome {
                answer: ended_as(ended),
                objects,
                named,
                accumulator,
                counter,
            };
        }
    };
    Outcome {
        answer: Direct::Done,
        objects: cells.objects,
        named: cells.named,
        accumulator: handed_back(create, accumulator, after.message),
        counter: after.counter,
    }
}
