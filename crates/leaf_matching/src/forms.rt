// The forms with no part, a message against each. A variable that has to be unset was looked at before the walk began. Where a cell may hold a row or
// none, or must hold none, its test is no `set_row`.
ghost use Rattle.std.specs.Prelude.{ℕ, ◌<◌, length};
ghost use Rattle.numbers.specs.Kinds.{kind_in};
ghost use Rattle.numbers.specs.Limits.{named_cells};
ghost use Rattle.patterns.specs.Pattern.{object, raw, constant, opposite, key_of, signature, hash};
ghost use Rattle.patterns.specs.Row.{pattern_fields};
ghost use Rattle.patterns.specs.Tree.{key_by};
ghost use Rattle.stores.specs.Cells.{held};
ghost use Rattle.theory.specs.World.{decrypt};
ghost use Rattle.theory.specs.Outcome.{bind};
ghost use Rattle.theory.specs.RowModel.{row_world};
ghost use Rattle.theory.specs.Rules.{made, decodes};
ghost use Rattle.machine.specs.Machine.{with_objects, with_messages, with_term_rows, with_certificates, Within};
ghost use Rattle.walks.specs.Walks.{stores_alone, message_and_stores, WalksBy};
ghost use Rattle.leaf_matching.specs.Stages.{WalksInside, asked};
ghost use Rattle.leaf_matching.specs.Matched.{meets};

use super::keys::{opposite_of, signing_key};
use super::stages::{agent_key, hashed, opened_by, same_as, verified};
use answers::Reason;
use machine::cells::{message_at, object_at, set_message, set_row};
use numbers::{Object, Raw};
use stores::cells::UNSET;
use walks::making::{decode, keep};
use walks::{Ended, Walk, Walked, asked_at};

// v
pub fn match_object(
    kinds: &[u8],
    terms: &[u64],
    objects: &mut [u16],
    walk: Walk,
    row: u8,
    v: Object,
) -> Walked
    requires within { Within terms.now walk.used }
    requires v_in_bounds { v.0 < length objects.old }
    ensures { WalksBy stores_alone (meets (kind_in kinds.now) (object row v.0) walk) walk
        (λ x. with_term_rows (with_objects x objects.old) terms.now) result
        (λ x. with_term_rows (with_objects x objects.new) terms.now) }
{
    let known = object_at(objects, v);
    if known.0 == UNSET {
        return decode(kinds, terms, objects, walk, row, v);
    }
    let message = asked_at(row, set_row(walk.message))?;
    same_as(Ok(walk.meeting(known)), row, message)
}

// r
pub fn match_raw(named: &mut [u16], walk: Walk, row: u8, r: Raw) -> Walked
    requires r_lt_named_cells { r.0 < named_cells }
    requires r_in_bounds { r.0 < length named.old }
    ensures { (kind : ℕ → ℕ) → WalksInside stores_alone (meets kind (raw row r.0) walk) walk
        (λ x. with_messages x named.old) result
        (λ x. with_messages x named.new) }
{
    let known = message_at(named, r);
    let message = asked_at(row, set_row(walk.message))?;
    if known.0 == UNSET {
        set_message(named, r, message);
        return Ok(walk);
    }
    same_as(Ok(walk), row, known)
}

// c : C
pub fn match_constant(
    terms: &mut [u64],
    objects: &mut [u16],
    walk: Walk,
    row: u8,
    c: Object,
    byte: u8,
) -> Walked
    requires within { Within terms.old walk.used }
    requires c_in_bounds { c.0 < length objects.old }
    ensures { (kind : ℕ → ℕ) → WalksBy stores_alone (meets kind (constant row c.0 byte) walk) walk
        (λ x. with_term_rows (with_objects x objects.old) terms.old) result
        (λ x. with_term_rows (with_objects x objects.new) terms.new) }
{
    let message = asked_at(row, set_row(walk.message))?;
    let known = object_at(objects, c);
    if known.0 != UNSET {
        return Err(Ended::Stuck(row, Reason::Unset));
    }
    let kept = keep(terms, objects, walk, row, c, world::byte(byte));
    same_as(kept, row, message)
}

// k : op(K)
pub fn match_opposite(
    terms: &mut [u64],
    objects: &mut [u16],
    walk: Walk,
    row: u8,
    public: Object,
    private: Object,
) -> Walked
    requires within { Within terms.old walk.used }
    requires public_in_bounds { public.0 < length objects.old }
    ensures { (kind : ℕ → ℕ) → WalksBy stores_alone (meets kind (opposite row public.0 private.0) walk) walk
        (λ x. with_term_rows (with_objects x objects.old) terms.old) result
        (λ x. with_term_rows (with_objects x objects.new) terms.new) }
{
    let message = asked_at(row, set_row(walk.message))?;
    let kept = opposite_of(terms, objects, walk, row, public, private);
    same_as(kept, row, message)
}

// k : keyOf(a)
pub fn match_key_of(
    kinds: &[u8],
    certificates: &[u64],
    terms: &[u64],
    objects: &mut [u16],
    walk: Walk,
    row: u8,
    key: Object,
    agent: Object,
) -> Walked
    requires within { Within terms.now walk.used }
    requires key_in_bounds { key.0 < length objects.old }
    ensures { WalksBy stores_alone (meets (kind_in kinds.now) (key_of row key.0 agent.0) walk) walk
        (λ x. with_certificates (with_term_rows (with_objects x objects.old) terms.now) certificates.now) result
        (λ x. with_certificates (with_term_rows (with_objects x objects.new) terms.now) certificates.now) }
{
    let message = walk.message;
    let decoded = decode(kinds, terms, objects, walk, row, key);
    let found = agent_key(certificates, objects, decoded, row, agent);
    same_as(found, row, message)
}

// h : H(r)
pub fn match_hash(
    kinds: &[u8],
    terms: &mut [u64],
    objects: &mut [u16],
    named: &[u16],
    walk: Walk,
    row: u8,
    h: Object,
    r: Raw,
) -> Walked
    requires within { Within terms.old walk.used }
    requires h_in_bounds { h.0 < length objects.old }
    requires r_lt_named_cells { r.0 < named_cells }
    ensures { WalksBy stores_alone (meets (kind_in kinds.now) (hash row h.0 r.0) walk) walk
        (λ x. with_term_rows (with_messages (with_objects x objects.old) named.now) terms.old) result
        (λ x. with_term_rows (with_messages (with_objects x objects.new) named.now) terms.new) }
{
    let message = walk.message;
    let decoded = decode(kinds, terms, objects, walk, row, h);
    let made = hashed(terms, named, decoded, row, r);
    same_as(made, row, message)
}

// s : S(key, r)
pub fn match_signature(
    kinds: &[u8],
    certificates: &[u64],
    terms: &mut [u64],
    objects: &mut [u16],
    named: &[u16],
    walk: Walk,
    row: u8,
    word: u64,
) -> Walked
    requires within { Within terms.old walk.used }
    requires word_in_bounds { (pattern_fields word).v < length objects.old }
    requires word_in_bounds_2 { (pattern_fields word).x < length objects.old }
    requires word_bound { (pattern_fields word).f < 3 }
    ensures { WalksBy stores_alone (meets (kind_in kinds.now) (signature row (pattern_fields word).v (key_by (pattern_fields word)) (pattern_fields word).r) walk) walk
        (λ x. with_certificates (with_term_rows (with_messages (with_objects x objects.old) named.now) terms.old) certificates.now) result
        (λ x. with_certificates (with_term_rows (with_messages (with_objects x objects.new) named.now) terms.new) certificates.now) }
{
    let message = walk.message;
    let decoded = decode(kinds, terms, objects, walk, row, patterns::variable(word));
    let keyed = signing_key(kinds, certificates, terms, objects, decoded, row, word);
    verified(terms, named, keyed, row, patterns::raw(word), message)
}

// e : E(key, p): the body comes into hand.
pub fn open(
    kinds: &[u8],
    terms: &[u64],
    objects: &mut [u16],
    walk: Walk,
    row: u8,
    e: Object,
    key: Object,
) -> Walked
    requires within { Within terms.now walk.used }
    requires e_in_bounds { e.0 < length objects.old }
    ensures { WalksBy message_and_stores
        (λ n. bind (decodes row_world (kind_in kinds.now) row e.0 (held walk.message.0) n (made row_world (kind_in kinds.now)))
        (λ m. asked row (λ n. n.σ key.0) (λ k. decrypt k m.0) m.1)) walk
        (λ x. with_term_rows (with_objects x objects.old) terms.now) result
        (λ x. with_term_rows (with_objects x objects.new) terms.now) }
{
    let decoded = decode(kinds, terms, objects, walk, row, e);
    opened_by(terms, objects, decoded, row, key)
}
