// Instructions that move rows between the accumulator and the cells.
ghost use Rattle.std.specs.Prelude.{ℕ, ◌<◌, length};
ghost use Rattle.code.specs.declared.Instruction.TheVariants.{Load, Store, Decode, Encode, Match};
ghost use Rattle.numbers.specs.Kinds.{kind_in};
ghost use Rattle.machine.specs.Machine.{with_objects, with_messages, with_term_rows, DoesStep};

use super::cells::{kind_at, message_at, object_at, set_message, set_object, set_row};
use super::{Registers, Step};
use numbers::{Object, Raw};

impl Registers {
    pub fn load(self, messages: &[u16], r: Raw) -> Step
        ensures { (kind : ℕ → ℕ) → DoesStep kind (Load r) self (λ x. with_messages x messages.now) result (λ x. with_messages x messages.now) }
    {
        let row = set_row(message_at(messages, r))?;
        Ok(self.holding(row))
    }

    pub fn store(self, messages: &mut [u16], r: Raw) -> Step
        requires { r.0 < length messages.old }
        ensures { (kind : ℕ → ℕ) → DoesStep kind (Store r) self (λ x. with_messages x messages.old) result (λ x. with_messages x messages.new) }
    {
        let row = set_row(self.accumulator)?;
        set_message(messages, r, row);
        Ok(self)
    }

    pub fn encode(self, objects: &[u16], v: Object) -> Step
        ensures { (kind : ℕ → ℕ) → DoesStep kind (Encode v) self (λ x. with_objects x objects.now) result (λ x. with_objects x objects.now) }
    {
        let row = set_row(object_at(objects, v))?;
        Ok(self.holding(row))
    }

    pub fn decode(self, kinds: &[u8], rows: &[u64], objects: &mut [u16], v: Object) -> Step
        requires { v.0 < length objects.old }
        ensures { DoesStep (kind_in kinds.now) (Decode v) self
            (λ x. with_term_rows (with_objects x objects.old) rows.now) result
            (λ x. with_term_rows (with_objects x objects.new) rows.now) }
    {
        let row = set_row(self.accumulator)?;
        world::is_kind(rows, kind_at(kinds, v), row)?;
        set_object(objects, v, row);
        Ok(self)
    }

    // MATCH r; `match` is a word of the language.
    pub fn compare(self, messages: &[u16], r: Raw) -> Step
        ensures { (kind : ℕ → ℕ) → DoesStep kind (Match r) self (λ x. with_messages x messages.now) result (λ x. with_messages x messages.now) }
    {
        let row = set_row(self.accumulator)?;
        let other = set_row(message_at(messages, r))?;
        world::same(row, other)?;
        Ok(self)
    }
}
