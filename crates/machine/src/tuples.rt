// Instructions on tuples, whose parts stand in message cells. The finder's answer is taken apart as in `making`.
ghost use Rattle.std.specs.Prelude.{◌≡◌, ℕ, ◌+◌, ◌<◌, ◌≤◌, length};
ghost use Rattle.numbers.specs.Limits.{most_parts};
ghost use Rattle.word.specs.Fields.{split, at};
ghost use Rattle.code.specs.declared.Instruction.TheVariants.{AnalyzeTuple, CreateTuple};
ghost use Rattle.terms.specs.Row.{term_widths};
ghost use Rattle.machine.specs.Machine.{with_objects, with_messages, with_term_rows, spread, Within, DoesStep};

use super::cells::{cell_at, object_at, set_object, set_row};
use super::{Halt, Registers, Step};
use numbers::limits::MOST_PARTS;
use numbers::{Object, Raw};

// The first n parts of a row, to the message cells from b on.
fn spread(messages: &mut [u16], b: Raw, word: u64, n: u8)
    requires { (n ≤ most_parts) × (b.0 + n ≤ length messages.old) }
    ensures { messages.new ≡ spread messages.old b.0 n (λ i. at (3 + i) (split term_widths word)) }
{
    let from = b.0 as usize;
    let count = n as usize;
    for i in 0..count {
        messages[from + i] = terms::part(word, i).0;
    }
}

impl Registers {
    pub fn analyze_tuple(
        self,
        rows: &[u64],
        objects: &[u16],
        messages: &mut [u16],
        t: Object,
        b: Raw,
        n: u8,
    ) -> Step
        requires { b.0 + n ≤ length messages.old }
        ensures { (kind : ℕ → ℕ) → DoesStep kind (AnalyzeTuple t b n) self
            (λ x. with_term_rows (with_messages (with_objects x objects.now) messages.old) rows.now) result
            (λ x. with_term_rows (with_messages (with_objects x objects.now) messages.new) rows.now) }
    {
        let row = set_row(object_at(objects, t))?;
        let word = world::parts(rows, row, n)?;
        spread(messages, b, word, n);
        Ok(self)
    }

    pub fn create_tuple(
        self,
        rows: &mut [u64],
        objects: &mut [u16],
        messages: &[u16],
        t: Object,
        b: Raw,
        n: u8,
    ) -> Step
        requires within { Within rows.old self.used }
        requires t_in_bounds { t.0 < length objects.old }
        requires n_le_most_parts { n ≤ most_parts }
        ensures { (kind : ℕ → ℕ) → DoesStep kind (CreateTuple t b n) self
            (λ x. with_term_rows (with_messages (with_objects x objects.old) messages.now) rows.old) result
            (λ x. with_term_rows (with_messages (with_objects x objects.new) messages.now) rows.new) }
    {
        let from = b.0 as usize;
        let count = n as usize;
        let mut parts = [0; MOST_PARTS];
        for i in 0..count {
            let cell = set_row(cell_at(messages, from + i))?;
            parts[i] = cell.0;
        }
        let word = world::tuple(&parts[..count]);
        let Some((row, used)) = finder::find(rows, self.used, word) else {
            return Err(Halt::NoRoom);
        };
        set_object(objects, t, row);
        Ok(self.using_rows(used))
    }
}
