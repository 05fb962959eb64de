// Keys that are made of another key or of an agent, in a match and in a creation alike. A cell that must be free has no row to hand on: its test is no `set_row`.
ghost use Rattle.std.specs.Prelude.{ℕ, ◌<◌, length};
ghost use Rattle.numbers.specs.Kinds.{kind_in};
ghost use Rattle.theory.specs.World.{op};
ghost use Rattle.theory.specs.RowModel.{row_world};
ghost use Rattle.theory.specs.Rules.{makes, made, create_key};
ghost use Rattle.patterns.specs.Pattern.{certified_key};
ghost use Rattle.machine.specs.Machine.{with_objects, with_term_rows, with_certificates, Within};
ghost use Rattle.walks.specs.Walks.{message_and_stores, WalksBy};

use super::making::{decode, keep};
use super::{Ended, Walk, Walked, asked_at};
use answers::Reason;
use machine::cells::{object_at, set_row};
use numbers::{Object, TermRow};
use stores::cells::UNSET;

// k : op(K), where K holds a row.
pub fn opposite_key(
    terms: &mut [u64],
    objects: &mut [u16],
    walk: Walk,
    row: u8,
    public: Object,
    private: TermRow,
) -> Walked
    requires within { Within terms.old walk.used }
    requires public_in_bounds { public.0 < length objects.old }
    ensures { (kind : ℕ → ℕ) → WalksBy message_and_stores
        (λ n. makes row_world kind row public.0 (op private.0) n (made row_world kind)) walk
        (λ x. with_term_rows (with_objects x objects.old) terms.old) result
        (λ x. with_term_rows (with_objects x objects.new) terms.new) }
{
    let known = object_at(objects, public);
    if known.0 != UNSET {
        return Err(Ended::Stuck(row, Reason::Unset));
    }
    let word = asked_at(row, world::opposite(terms, private))?;
    keep(terms, objects, walk, row, public, word)
}

// k : keyOf(a)
pub fn certified_key(
    kinds: &[u8],
    certificates: &[u64],
    terms: &[u64],
    objects: &mut [u16],
    walk: Walk,
    row: u8,
    key: Object,
    agent: Object,
) -> Walked
    requires within { Within terms.now walk.used }
    requires key_in_bounds { key.0 < length objects.old }
    ensures { WalksBy message_and_stores (create_key row_world (kind_in kinds.now) row (certified_key key.0 agent.0)) walk
        (λ x. with_certificates (with_term_rows (with_objects x objects.old) terms.now) certificates.now) result
        (λ x. with_certificates (with_term_rows (with_objects x objects.new) terms.now) certificates.now) }
{
    let whose = asked_at(row, set_row(object_at(objects, agent)))?;
    let found = asked_at(row, world::key_of(certificates, whose))?;
    decode(kinds, terms, objects, walk.meeting(found), row, key)
}
