// A step for each word of code that was found good. What does not end gives its rows back.
#![tactic(auto)]

ghost use Rattle.std.specs.Prelude.{◌≡◌, ◌≤◌, T, length};
ghost use Rattle.std.specs.Prelude.{None};
ghost use Rattle.code.specs.Words.{good_word};
ghost use Rattle.numbers.specs.Kinds.{kind_in};
ghost use Rattle.calls.specs.Run.{run_by};
ghost use Rattle.machine.specs.Machine.{slices, Within};
ghost use Rattle.terms.specs.Rules.{used_rows};
ghost use Rattle.execution.specs.Steps.{Cleared, at_word, halted, lent_from, left_with, cells_after, Ready, DoesWord};

use answers::Ran;
use machine::{Halt, Registers, Step};
use stores::cells::Cells;

// An answer, with the registers after it.
#[derive(Clone, Copy)]
pub struct Stepped {
    pub answer: Ran,
    pub registers: Registers,
}

// Rows from one on to another are unused again.
pub fn clear(rows: &mut [u64], from: usize, to: usize)
    requires { (from ≤ to) × (to ≤ length rows.old) }
    ensures { Cleared rows.old from to rows.new }
{
    rows[from..to].fill(0);
}

// The registers at a word.
fn at_word(g: Registers, place: u32) -> Registers
    ensures { result ≡ at_word g place }
{
    Registers { place, ..g }
}

// What a run answers that a step stopped.
fn halted(halt: Halt, place: u32) -> Ran
    ensures { result ≡ halted halt place }
{
    match halt {
        Halt::Stuck(reason) => Ran::Stuck(place, reason),
        Halt::NoRoom => Ran::NoRoom(place),
    }
}

// One good word.
fn one(
    g: Registers,
    place: u32,
    word: u32,
    kinds: &[u8],
    cells: &mut Cells,
    certificates: &[u64],
    rows: &mut [u64],
) -> Step
    requires t { T (good_word (kind_in kinds.now) word) }
    requires within { Within rows.old g.used }
    ensures { DoesWord (kind_in kinds.now) place word g
        (slices cells.old.objects cells.old.messages rows.old certificates.now) result
        (slices cells.new.objects cells.new.messages rows.new certificates.now) }
{
    // A good word is an instruction's, so the other branch is never taken.
    let Some(instruction) = code::instruction_of(word) else {
        return Err(Halt::NoRoom);
    };
    let here = at_word(g, place);
    stepping::step(here, instruction, kinds, cells, certificates, rows)
}

// The cells are changed where they stand: with an answer other than done they are not those on entry.
pub fn steps(
    start: Registers,
    kinds: &[u8],
    cells: &mut Cells,
    certificates: &[u64],
    rows: &mut [u64],
    code: &[u32],
) -> Stepped
    requires { Ready (lent_from start kinds.now cells.old.objects cells.old.messages certificates.now rows.old) start.used code.now }
    ensures { (left_with result.answer result.registers (cells_after result.answer cells.old.objects cells.new.objects)
        (cells_after result.answer cells.old.messages cells.new.messages) rows.new
        ≡ run_by (lent_from start kinds.now cells.old.objects cells.old.messages certificates.now rows.old) code.now None)
        × (result.registers.used ≡ used_rows rows.new) }
{
    let mut g = start;
    for (i, &word) in code.iter().enumerate() {
        let place = i as u32;
        match one(g, place, word, kinds, cells, certificates, rows) {
            Ok(next) => g = next,
            Err(halt) => {
                clear(rows, start.used as usize, g.used as usize);
                return Stepped {
                    answer: halted(halt, place),
                    registers: start,
                };
            }
        }
    }
    Stepped {
        answer: Ran::Done(code.len() as u32),
        registers: g,
    }
}
