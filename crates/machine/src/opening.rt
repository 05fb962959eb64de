// Instructions that look a key up, or into a term.
ghost use Rattle.std.specs.Prelude.{ℕ};
ghost use Rattle.code.specs.declared.Instruction.TheVariants.{KeyOf, Decrypt, Verify};
ghost use Rattle.machine.specs.Machine.{with_objects, with_messages, with_term_rows, with_certificates, DoesStep};

use super::cells::{message_at, object_at, set_row};
use super::{Registers, Step};
use numbers::{Object, Raw};

impl Registers {
    pub fn key_of(self, certificates: &[u64]) -> Step
        ensures { (kind : ℕ → ℕ) → DoesStep kind KeyOf self
            (λ x. with_certificates x certificates.now) result
            (λ x. with_certificates x certificates.now) }
    {
        let agent = set_row(self.accumulator)?;
        let key = world::key_of(certificates, agent)?;
        Ok(self.holding(key))
    }

    pub fn decrypt(self, rows: &[u64], objects: &[u16], v: Object) -> Step
        ensures { (kind : ℕ → ℕ) → DoesStep kind (Decrypt v) self
            (λ x. with_term_rows (with_objects x objects.now) rows.now) result
            (λ x. with_term_rows (with_objects x objects.now) rows.now) }
    {
        let key = set_row(object_at(objects, v))?;
        let sealed = set_row(self.accumulator)?;
        let body = world::decrypt(rows, key, sealed)?;
        Ok(self.holding(body))
    }

    pub fn verify(self, rows: &[u64], objects: &[u16], messages: &[u16], v: Object, r: Raw) -> Step
        ensures { (kind : ℕ → ℕ) → DoesStep kind (Verify v r) self
            (λ x. with_term_rows (with_messages (with_objects x objects.now) messages.now) rows.now) result
            (λ x. with_term_rows (with_messages (with_objects x objects.now) messages.now) rows.now) }
    {
        let key = set_row(object_at(objects, v))?;
        let body = set_row(message_at(messages, r))?;
        let signature = set_row(self.accumulator)?;
        world::verify(rows, key, body, signature)?;
        Ok(self)
    }
}
