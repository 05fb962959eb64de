// A variable is read, or created where it can be; a key is one, or is made of one. A cell may hold a row or none: its test is no `set_row`.
ghost use Rattle.std.specs.Prelude.{◌≡◌, ◌<◌, length};
ghost use Rattle.numbers.specs.Limits.{variables};
ghost use Rattle.patterns.specs.Pattern.{plain_key, op_key};
ghost use Rattle.patterns.specs.Row.{pattern_fields};
ghost use Rattle.patterns.specs.Tree.{key_by};
ghost use Rattle.machine.specs.Machine.{with_objects, with_term_rows, with_certificates, Within};
ghost use Rattle.walks.specs.Walks.{message_and_stores, WalksBy};
ghost use Rattle.walk_values.specs.Values.{key_rule, names};

use answers::Reason;
use layout::creatable_kind;
use machine::cells::{kind_at, object_at};
use numbers::Object;
use patterns::forms as form;
use stores::cells::UNSET;
use walks::keys::{certified_key, opposite_key};
use walks::making::keep;
use walks::{Ended, Walk, Walked};

// A new name becomes the value of v. The counter is looked at before the row.
fn create_name(
    terms: &mut [u64],
    objects: &mut [u16],
    walk: Walk,
    row: u8,
    v: Object,
    kind: u8,
) -> Walked
    requires within { Within terms.old walk.used }
    requires v_in_bounds { v.0 < length objects.old }
    requires kind_bound { kind < 16 }
    ensures { WalksBy message_and_stores (names row v.0 kind) walk
        (λ x. with_term_rows (with_objects x objects.old) terms.old) result
        (λ x. with_term_rows (with_objects x objects.new) terms.new) }
{
    let Some((word, counter)) = world::create(kind, walk.counter) else {
        return Err(Ended::NoRoom(row));
    };
    keep(terms, objects, Walk { counter, ..walk }, row, v, word)
}

// The value of a variable comes into hand; one that has none is created, where it can be.
pub fn get_variable(
    kinds: &[u8],
    terms: &mut [u64],
    objects: &mut [u16],
    walk: Walk,
    row: u8,
    v: Object,
) -> Walked
    requires within { Within terms.old walk.used }
    requires v_in_bounds { v.0 < length objects.old }
    ensures { WalksBy message_and_stores (key_rule kinds.now row (plain_key v.0)) walk
        (λ x. with_term_rows (with_objects x objects.old) terms.old) result
        (λ x. with_term_rows (with_objects x objects.new) terms.new) }
{
    let known = object_at(objects, v);
    if known.0 != UNSET {
        return Ok(walk.meeting(known));
    }
    let kind = kind_at(kinds, v);
    if !creatable_kind(kind) {
        return Err(Ended::Stuck(row, Reason::Unset));
    }
    create_name(terms, objects, walk, row, v, kind)
}

// k : op(K)
pub fn create_opposite(
    kinds: &[u8],
    terms: &mut [u64],
    objects: &mut [u16],
    walk: Walk,
    row: u8,
    public: Object,
    private: Object,
) -> Walked
    requires within { Within terms.old walk.used }
    requires public_in_bounds { (public.0 < length objects.old) × (private.0 < length objects.old) }
    ensures { WalksBy message_and_stores (key_rule kinds.now row (op_key public.0 private.0)) walk
        (λ x. with_term_rows (with_objects x objects.old) terms.old) result
        (λ x. with_term_rows (with_objects x objects.new) terms.new) }
{
    let next = get_variable(kinds, terms, objects, walk, row, private)?;
    opposite_key(terms, objects, next, row, public, next.message)
}

// The key of E and S, by its form.
pub fn create_key(
    kinds: &[u8],
    certificates: &[u64],
    terms: &mut [u64],
    objects: &mut [u16],
    walk: Walk,
    row: u8,
    word: u64,
) -> Walked
    requires word_bound { ((pattern_fields word).f < 3) × ((pattern_fields word).x < variables) }
    requires within { Within terms.old walk.used }
    requires objects_len { length objects.old ≡ variables }
    ensures { WalksBy message_and_stores (key_rule kinds.now row (key_by (pattern_fields word))) walk
        (λ x. with_certificates (with_term_rows (with_objects x objects.old) terms.old) certificates.now) result
        (λ x. with_certificates (with_term_rows (with_objects x objects.new) terms.new) certificates.now) }
{
    let key = patterns::key(word);
    match patterns::key_form(word) {
        form::PLAIN_KEY => get_variable(kinds, terms, objects, walk, row, key),
        form::OPPOSITE_KEY => {
            create_opposite(kinds, terms, objects, walk, row, key, patterns::y(word))
        }
        _ => {
            let agent = patterns::y(word);
            certified_key(kinds, certificates, terms, objects, walk, row, key, agent)
        }
    }
}
