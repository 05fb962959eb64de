// Instructions that make a term. Each takes the finder's answer apart by `let .. else`, which is document 01's form.
ghost use Rattle.std.specs.Prelude.{ℕ, ◌<◌, length};
ghost use Rattle.numbers.specs.declared.Object.{Object};
ghost use Rattle.code.specs.declared.Instruction.TheVariants.{StoreConst, Create, Opposite, Encrypt, Sign, Hash};
ghost use Rattle.numbers.specs.Kinds.{kind_in};
ghost use Rattle.machine.specs.Machine.{with_objects, with_term_rows, Within, DoesStep};

use super::cells::{kind_at, object_at, set_object, set_row};
use super::{Halt, Registers, Step};
use numbers::Object;

impl Registers {
    pub fn store_const(self, rows: &mut [u64], objects: &mut [u16], c: Object, byte: u8) -> Step
        requires within { Within rows.old self.used }
        requires c_in_bounds { c.0 < length objects.old }
        ensures { (kind : ℕ → ℕ) → DoesStep kind (StoreConst c byte) self
            (λ x. with_term_rows (with_objects x objects.old) rows.old) result
            (λ x. with_term_rows (with_objects x objects.new) rows.new) }
    {
        let word = world::byte(byte);
        let Some((row, used)) = finder::find(rows, self.used, word) else {
            return Err(Halt::NoRoom);
        };
        set_object(objects, c, row);
        Ok(self.using_rows(used))
    }

    // The counter is looked at before the row.
    pub fn create(self, kinds: &[u8], rows: &mut [u64], objects: &mut [u16], v: Object) -> Step
        requires within { Within rows.old self.used }
        requires v_in_bounds { v.0 < length objects.old }
        requires v_bound { kind_in kinds.now v.0 < 16 }
        ensures { DoesStep (kind_in kinds.now) (Create v) self
            (λ x. with_term_rows (with_objects x objects.old) rows.old) result
            (λ x. with_term_rows (with_objects x objects.new) rows.new) }
    {
        let Some((word, counter)) = world::create(kind_at(kinds, v), self.counter) else {
            return Err(Halt::NoRoom);
        };
        let Some((row, used)) = finder::find(rows, self.used, word) else {
            return Err(Halt::NoRoom);
        };
        set_object(objects, v, row);
        Ok(self.naming(used, counter))
    }

    // OPPOSITE K k: K is private, k public.
    pub fn opposite(
        self,
        rows: &mut [u64],
        objects: &mut [u16],
        private: Object,
        public: Object,
    ) -> Step
        requires within { Within rows.old self.used }
        requires public_in_bounds { public.0 < length objects.old }
        ensures { (kind : ℕ → ℕ) → DoesStep kind (Opposite private public) self
            (λ x. with_term_rows (with_objects x objects.old) rows.old) result
            (λ x. with_term_rows (with_objects x objects.new) rows.new) }
    {
        let key = set_row(object_at(objects, private))?;
        let word = world::opposite(rows, key)?;
        let Some((row, used)) = finder::find(rows, self.used, word) else {
            return Err(Halt::NoRoom);
        };
        set_object(objects, public, row);
        Ok(self.using_rows(used))
    }

    // ENCRYPT and SIGN share their reads, which each does itself: what is looked at first stands first.
    pub fn encrypt(self, rows: &mut [u64], objects: &[u16], v: Object) -> Step
        requires { Within rows.old self.used }
        ensures { (kind : ℕ → ℕ) → DoesStep kind (Encrypt v) self
            (λ x. with_term_rows (with_objects x objects.now) rows.old) result
            (λ x. with_term_rows (with_objects x objects.now) rows.new) }
    {
        let key = set_row(object_at(objects, v))?;
        let body = set_row(self.accumulator)?;
        let word = world::encrypt(key, body);
        let Some((row, used)) = finder::find(rows, self.used, word) else {
            return Err(Halt::NoRoom);
        };
        Ok(self.using_rows(used).holding(row))
    }

    pub fn sign(self, rows: &mut [u64], objects: &[u16], v: Object) -> Step
        requires { Within rows.old self.used }
        ensures { (kind : ℕ → ℕ) → DoesStep kind (Sign v) self
            (λ x. with_term_rows (with_objects x objects.now) rows.old) result
            (λ x. with_term_rows (with_objects x objects.now) rows.new) }
    {
        let key = set_row(object_at(objects, v))?;
        let body = set_row(self.accumulator)?;
        let word = world::sign(key, body);
        let Some((row, used)) = finder::find(rows, self.used, word) else {
            return Err(Halt::NoRoom);
        };
        Ok(self.using_rows(used).holding(row))
    }

    // HASH does not read its h.
    pub fn hash(self, rows: &mut [u64]) -> Step
        requires { Within rows.old self.used }
        ensures { (kind : ℕ → ℕ) (h : Object) → DoesStep kind (Hash h) self (λ x. with_term_rows x rows.old) result (λ x. with_term_rows x rows.new) }
    {
        let body = set_row(self.accumulator)?;
        let word = world::hash(body);
        let Some((row, used)) = finder::find(rows, self.used, word) else {
            return Err(Halt::NoRoom);
        };
        Ok(self.using_rows(used).holding(row))
    }
}
