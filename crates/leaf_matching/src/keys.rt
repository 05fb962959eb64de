// The key of a signature that is matched: read, or made of another key or of an agent. A creation may make the key that it reads: `walk_values::keys`.
ghost use Rattle.std.specs.Prelude.{ℕ, ◌<◌, length};
ghost use Rattle.numbers.specs.Kinds.{kind_in};
ghost use Rattle.patterns.specs.Pattern.{plain_key};
ghost use Rattle.patterns.specs.Row.{pattern_fields};
ghost use Rattle.patterns.specs.Tree.{key_by};
ghost use Rattle.machine.specs.Machine.{with_objects, with_term_rows, with_certificates, Within};
ghost use Rattle.walks.specs.Walks.{message_and_stores, WalksBy};
ghost use Rattle.leaf_matching.specs.Stages.{WalksInside, GoesOnBy, Inside, opposed, keyed};

use machine::cells::{object_at, set_row};
use numbers::Object;
use patterns::forms as form;
use walks::keys::{certified_key, opposite_key};
use walks::{Walk, Walked, asked_at};

// A key that a variable holds.
fn held_key(objects: &[u16], walk: Walk, row: u8, key: Object) -> Walked
    ensures { (kind : ℕ → ℕ) → WalksInside message_and_stores (keyed kind row (plain_key key.0)) walk
        (λ x. with_objects x objects.now) result
        (λ x. with_objects x objects.now) }
{
    let known = asked_at(row, set_row(object_at(objects, key)))?;
    Ok(walk.meeting(known))
}

// k : op(K)
pub fn opposite_of(
    terms: &mut [u64],
    objects: &mut [u16],
    walk: Walk,
    row: u8,
    public: Object,
    private: Object,
) -> Walked
    requires within { Within terms.old walk.used }
    requires public_in_bounds { public.0 < length objects.old }
    ensures { (kind : ℕ → ℕ) → WalksBy message_and_stores (opposed kind row public.0 private.0) walk
        (λ x. with_term_rows (with_objects x objects.old) terms.old) result
        (λ x. with_term_rows (with_objects x objects.new) terms.new) }
{
    let key = asked_at(row, set_row(object_at(objects, private)))?;
    opposite_key(terms, objects, walk, row, public, key)
}

// The key of s : S(key, r) comes into hand.
pub fn signing_key(
    kinds: &[u8],
    certificates: &[u64],
    terms: &mut [u64],
    objects: &mut [u16],
    came: Walked,
    row: u8,
    word: u64,
) -> Walked
    requires inside { Inside terms.old came }
    requires word_in_bounds { (pattern_fields word).x < length objects.old }
    requires word_bound { (pattern_fields word).f < 3 }
    ensures { GoesOnBy message_and_stores (λ m. keyed (kind_in kinds.now) row (key_by (pattern_fields word)) m.1) came
        (λ x. with_certificates (with_term_rows (with_objects x objects.old) terms.old) certificates.now) result
        (λ x. with_certificates (with_term_rows (with_objects x objects.new) terms.new) certificates.now) }
{
    let walk = came?;
    let key = patterns::key(word);
    let second = patterns::y(word);
    match patterns::key_form(word) {
        form::PLAIN_KEY => held_key(objects, walk, row, key),
        form::OPPOSITE_KEY => opposite_of(terms, objects, walk, row, key, second),
        _ => certified_key(kinds, certificates, terms, objects, walk, row, key, second),
    }
}
