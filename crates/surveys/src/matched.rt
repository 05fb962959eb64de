// What the forms with no children look at when they are matched.
ghost use Rattle.std.specs.Prelude.{◌≡◌, [], ◌∷◌, ℕ, ◌<◌};
ghost use Rattle.numbers.specs.Limits.{variables};
ghost use Rattle.patterns.specs.Forms.{signature_form};
ghost use Rattle.patterns.specs.Pattern.{key_of, hash};
ghost use Rattle.patterns.specs.Row.{pattern_fields};
ghost use Rattle.patterns.specs.Standing.{pattern_in, StandsAt, Leaf};
ghost use Rattle.calls.specs.Looks.{sets, sets_raw, matching_looks};
ghost use Rattle.surveys.specs.Surveys.{Surveys};

use crate::keys;
use knowing::{Emission, object_known, raw_known, read_object, read_raw, write_object, write_raw};
use layout::Rows;
use numbers::{Object, Raw};
use patterns::forms as form;

// v: compared where it is set, set where it is not.
fn match_object(emission: &mut Emission, row: u8, v: Object)
    requires { v.0 < variables }
    ensures { (kind : ℕ → ℕ) → Surveys kind (sets v.0 ∷ []) emission.old emission.new }
{
    if !object_known(emission, v) {
        write_object(emission, row, v);
    }
}

// r, likewise
fn match_raw(emission: &mut Emission, row: u8, r: Raw)
    requires { r.0 < variables }
    ensures { (kind : ℕ → ℕ) → Surveys kind (sets_raw r.0 ∷ []) emission.old emission.new }
{
    if !raw_known(emission, r) {
        write_raw(emission, row, r);
    }
}

// k : keyOf(a)
fn match_key_of(emission: &mut Emission, row: u8, key: Object, agent: Object)
    requires { key.0 < variables }
    ensures { (kind : ℕ → ℕ) → Surveys kind (matching_looks (key_of row key.0 agent.0)) emission.old emission.new }
{
    write_object(emission, row, key);
    read_object(emission, row, agent);
}

// h : H(r)
fn match_hash(emission: &mut Emission, row: u8, h: Object, r: Raw)
    requires { (h.0 < variables) × (r.0 < variables) }
    ensures { (kind : ℕ → ℕ) → Surveys kind (matching_looks (hash row h.0 r.0)) emission.old emission.new }
{
    write_object(emission, row, h);
    read_raw(emission, row, r);
}

// s : S(key, r)
fn match_signature(rows: &Rows, emission: &mut Emission, row: u8, word: u64)
    requires stands_at { StandsAt rows.now row word }
    requires word_value { (pattern_fields word).tag ≡ signature_form }
    ensures { (kind : ℕ → ℕ) → Surveys kind (matching_looks (pattern_in rows.now row)) emission.old emission.new }
{
    let key = patterns::key(word);
    let r = patterns::raw(word);
    write_object(emission, row, patterns::variable(word));
    if patterns::key_form(word) == form::PLAIN_KEY {
        read_object(emission, row, key);
    } else {
        keys::derive_key(emission, row, key, patterns::y(word));
    }
    read_raw(emission, row, r);
}

// The pattern of a row with no children.
pub fn match_leaf(rows: &Rows, emission: &mut Emission, row: u8, word: u64)
    requires stands_at { StandsAt rows.now row word }
    requires leaf { Leaf (pattern_fields word).tag }
    ensures { (kind : ℕ → ℕ) → Surveys kind (matching_looks (pattern_in rows.now row)) emission.old emission.new }
{
    let tag = patterns::tag(word);
    let v = patterns::variable(word);
    match tag {
        form::OBJECT_VARIABLE => match_object(emission, row, v),
        form::RAW_VARIABLE => match_raw(emission, row, patterns::raw(word)),
        form::CONSTANT => write_object(emission, row, v),
        form::OPPOSITE => keys::derive_key(emission, row, v, patterns::y(word)),
        form::KEY_OF => match_key_of(emission, row, v, patterns::y(word)),
        form::SIGNATURE => match_signature(rows, emission, row, word),
        _ => match_hash(emission, row, v, patterns::raw(word)),
    }
}
