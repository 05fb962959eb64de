// What the forms with no children look at when they are created.
ghost use Rattle.std.specs.Prelude.{◌≡◌, ℕ, ◌<◌};
ghost use Rattle.numbers.specs.Kinds.{kind_in};
ghost use Rattle.numbers.specs.Limits.{variables};
ghost use Rattle.patterns.specs.Forms.{signature_form};
ghost use Rattle.patterns.specs.Pattern.{hash};
ghost use Rattle.patterns.specs.Row.{pattern_fields};
ghost use Rattle.patterns.specs.Standing.{pattern_in, StandsAt, Leaf};
ghost use Rattle.calls.specs.Looks.{creating_looks};
ghost use Rattle.surveys.specs.Surveys.{Surveys};

use crate::keys;
use knowing::{Emission, read_raw, write_object};
use layout::{Kinds, Rows};
use numbers::{Object, Raw};
use patterns::forms as form;

// h : H(r)
fn create_hash(emission: &mut Emission, row: u8, h: Object, r: Raw)
    requires { (h.0 < variables) × (r.0 < variables) }
    ensures { (kind : ℕ → ℕ) → Surveys kind (creating_looks (hash row h.0 r.0)) emission.old emission.new }
{
    read_raw(emission, row, r);
    write_object(emission, row, h);
}

// s : S(key, r)
fn create_signature(rows: &Rows, kinds: &Kinds, emission: &mut Emission, row: u8, word: u64)
    requires stands_at { StandsAt rows.now row word }
    requires word_value { (pattern_fields word).tag ≡ signature_form }
    ensures { Surveys (kind_in kinds.now) (creating_looks (pattern_in rows.now row)) emission.old emission.new }
{
    let s = patterns::variable(word);
    let r = patterns::raw(word);
    keys::create_key(kinds, emission, row, word);
    read_raw(emission, row, r);
    write_object(emission, row, s);
}

// The pattern of a row with no children.
pub fn create_leaf(rows: &Rows, kinds: &Kinds, emission: &mut Emission, row: u8, word: u64)
    requires stands_at { StandsAt rows.now row word }
    requires leaf { Leaf (pattern_fields word).tag }
    ensures { Surveys (kind_in kinds.now) (creating_looks (pattern_in rows.now row)) emission.old emission.new }
{
    let tag = patterns::tag(word);
    let v = patterns::variable(word);
    match tag {
        form::OBJECT_VARIABLE => keys::create_variable(kinds, emission, row, v),
        form::RAW_VARIABLE => read_raw(emission, row, patterns::raw(word)),
        form::CONSTANT => write_object(emission, row, v),
        form::OPPOSITE => keys::create_opposite(kinds, emission, row, v, patterns::y(word)),
        form::KEY_OF => keys::derive_key(emission, row, v, patterns::y(word)),
        form::SIGNATURE => create_signature(rows, kinds, emission, row, word),
        _ => create_hash(emission, row, v, patterns::raw(word)),
    }
}
