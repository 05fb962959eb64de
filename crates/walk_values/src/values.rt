// A made message becomes the value of a variable that has none. A cell that must be free has no row to hand on: its test is no `set_row`.
ghost use Rattle.std.specs.Prelude.{ℕ, ◌<◌, length};
ghost use Rattle.theory.specs.World.{Op};
ghost use Rattle.theory.specs.RowModel.{row_world};
ghost use Rattle.theory.specs.Rules.{makes, made};
ghost use Rattle.world.specs.Operations.{MakesWord};
ghost use Rattle.machine.specs.Machine.{with_objects, with_term_rows, Within};
ghost use Rattle.walks.specs.Walks.{message_and_stores, WalksBy};
ghost use Rattle.walk_values.specs.Values.{seals};

use answers::Reason;
use machine::cells::object_at;
use numbers::Object;
use stores::cells::UNSET;
use walks::making::{decode, keep, make};
use walks::{Ended, Walk, Walked};

// As it is made: a byte, a tuple.
pub fn make_value(
    terms: &mut [u64],
    objects: &mut [u16],
    walk: Walk,
    row: u8,
    v: Object,
    word: u64,
) -> Walked
    requires within { Within terms.old walk.used }
    requires v_in_bounds { v.0 < length objects.old }
    ensures { (kind : ℕ → ℕ) (o : Op ℕ) → MakesWord o word → WalksBy message_and_stores (λ n. makes row_world kind row v.0 o n (made row_world kind)) walk
        (λ x. with_term_rows (with_objects x objects.old) terms.old) result
        (λ x. with_term_rows (with_objects x objects.new) terms.new) }
{
    let known = object_at(objects, v);
    if known.0 != UNSET {
        return Err(Ended::Stuck(row, Reason::Unset));
    }
    keep(terms, objects, walk, row, v, word)
}

// By v.decode(m): an encryption, a signature, a hash.
pub fn seal(
    kinds: &[u8],
    terms: &mut [u64],
    objects: &mut [u16],
    walk: Walk,
    row: u8,
    v: Object,
    word: u64,
) -> Walked
    requires within { Within terms.old walk.used }
    requires v_in_bounds { v.0 < length objects.old }
    ensures { (o : Op ℕ) → MakesWord o word → WalksBy message_and_stores (seals kinds.now row v.0 o) walk
        (λ x. with_term_rows (with_objects x objects.old) terms.old) result
        (λ x. with_term_rows (with_objects x objects.new) terms.new) }
{
    let next = make(terms, walk, row, word)?;
    decode(kinds, terms, objects, next, row, v)
}
