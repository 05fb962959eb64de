// Figure 3 for the forms with no part.
#![tactic(auto)]

ghost use Rattle.std.specs.Prelude.{◌≡◌, List, ℕ, ◌<◌, ◌≤◌, length};
ghost use Rattle.numbers.specs.Limits.{variables, named_cells};
ghost use Rattle.patterns.specs.Forms.{signature_form};
ghost use Rattle.patterns.specs.Pattern.{raw, hash};
ghost use Rattle.patterns.specs.Row.{pattern_fields};
ghost use Rattle.patterns.specs.Standing.{pattern_in, StandsAt, Leaf};
ghost use Rattle.machine.specs.Machine.{Slices, slices, with_objects, with_messages, with_term_rows, Within};
ghost use Rattle.walk_leaves.specs.Creation.{CreatesBy};

use machine::cells::{message_at, set_row};
use numbers::{Object, Raw};
use patterns::forms as form;
use walk_values::keys::{create_key, create_opposite, get_variable};
use walk_values::values::{make_value, seal};
use walks::keys::certified_key;
use walks::{Ground, Walk, Walked, asked_at};

// r
fn create_raw(named: &[u16], walk: Walk, row: u8, r: Raw) -> Walked
    requires { r.0 < named_cells }
    ensures { (kinds : List ℕ) (x : Slices) → walk.used ≤ length x.rows
        → CreatesBy kinds (raw row r.0) walk (with_messages x named.now) result (with_messages x named.now) }
{
    let message = asked_at(row, set_row(message_at(named, r)))?;
    Ok(walk.meeting(message))
}

// h : H(r)
fn create_hash(
    kinds: &[u8],
    terms: &mut [u64],
    objects: &mut [u16],
    named: &[u16],
    walk: Walk,
    row: u8,
    h: Object,
    r: Raw,
) -> Walked
    requires within { Within terms.old walk.used }
    requires h_in_bounds { (h.0 < length objects.old) × (r.0 < named_cells) }
    ensures { (x : Slices) → CreatesBy kinds.now (hash row h.0 r.0) walk
        (with_term_rows (with_messages (with_objects x objects.old) named.now) terms.old) result
        (with_term_rows (with_messages (with_objects x objects.new) named.now) terms.new) }
{
    let body = asked_at(row, set_row(message_at(named, r)))?;
    seal(kinds, terms, objects, walk, row, h, world::hash(body))
}

// s : S(key, r): the key, then r, then the signature.
fn create_signature(
    ground: &Ground<'_>,
    terms: &mut [u64],
    objects: &mut [u16],
    named: &[u16],
    walk: Walk,
    row: u8,
    word: u64,
) -> Walked
    requires stands_at { StandsAt ground.now.rows.now row word }
    requires word_value { (pattern_fields word).tag ≡ signature_form }
    requires within { Within terms.old walk.used }
    requires objects_len { length objects.old ≡ variables }
    ensures { CreatesBy ground.now.kinds.now (pattern_in ground.now.rows.now row) walk
        (slices objects.old named.now terms.old ground.now.certificates.now) result
        (slices objects.new named.now terms.new ground.now.certificates.now) }
{
    let s = patterns::variable(word);
    let r = patterns::raw(word);
    let next = create_key(
        ground.kinds,
        ground.certificates,
        terms,
        objects,
        walk,
        row,
        word,
    )?;
    let body = asked_at(row, set_row(message_at(named, r)))?;
    let signature = world::sign(next.message, body);
    seal(ground.kinds, terms, objects, next, row, s, signature)
}

// The pattern of a row with no children.
pub fn create_leaf(
    ground: &Ground<'_>,
    terms: &mut [u64],
    objects: &mut [u16],
    named: &[u16],
    walk: Walk,
    row: u8,
    word: u64,
) -> Walked
    requires stands_at { StandsAt ground.now.rows.now row word }
    requires leaf { Leaf (pattern_fields word).tag }
    requires within { Within terms.old walk.used }
    requires objects_len { length objects.old ≡ variables }
    ensures { CreatesBy ground.now.kinds.now (pattern_in ground.now.rows.now row) walk
        (slices objects.old named.now terms.old ground.now.certificates.now) result
        (slices objects.new named.now terms.new ground.now.certificates.now) }
{
    let v = patterns::variable(word);
    let y = patterns::y(word);
    let r = patterns::raw(word);
    match patterns::tag(word) {
        form::OBJECT_VARIABLE => get_variable(ground.kinds, terms, objects, walk, row, v),
        form::RAW_VARIABLE => create_raw(named, walk, row, r),
        form::CONSTANT => {
            let made = world::byte(patterns::byte(word));
            make_value(terms, objects, walk, row, v, made)
        }
        form::OPPOSITE => create_opposite(ground.kinds, terms, objects, walk, row, v, y),
        form::KEY_OF => certified_key(
            ground.kinds,
            ground.certificates,
            terms,
            objects,
            walk,
            row,
            v,
            y,
        ),
        form::SIGNATURE => create_signature(ground, terms, objects, named, walk, row, word),
        _ => create_hash(ground.kinds, terms, objects, named, walk, row, v, r),
    }
}
