// Variables and keys: what is read of them, and what is set.
ghost use Rattle.std.specs.Prelude.{[], ◌∷◌, ℕ, ◌<◌};
ghost use Rattle.numbers.specs.Kinds.{kind_in};
ghost use Rattle.numbers.specs.Limits.{variables};
ghost use Rattle.patterns.specs.Pattern.{op_key};
ghost use Rattle.patterns.specs.Row.{pattern_fields};
ghost use Rattle.patterns.specs.Tree.{key_by};
ghost use Rattle.calls.specs.Looks.{reads, writes, reads_or_creates, creating_key_looks};
ghost use Rattle.surveys.specs.Surveys.{Surveys};

use knowing::{Emission, object_known, read_object, write_object};
use layout::{Kinds, creatable};
use numbers::Object;
use patterns::forms as form;

// A key made of another key, or of an agent: that is read, and then the key is set.
pub fn derive_key(emission: &mut Emission, row: u8, key: Object, source: Object)
    requires { key.0 < variables }
    ensures { (kind : ℕ → ℕ) → Surveys kind (reads row source.0 ∷ writes row key.0 ∷ []) emission.old emission.new }
{
    read_object(emission, row, source);
    write_object(emission, row, key);
}

// Created: a variable that is set is read, a creatable one is set, any other is 7.
pub fn create_variable(kinds: &Kinds, emission: &mut Emission, row: u8, v: Object)
    requires { v.0 < variables }
    ensures { Surveys (kind_in kinds.now) (reads_or_creates row v.0 ∷ []) emission.old emission.new }
{
    if !object_known(emission, v) {
        if creatable(kinds, v) {
            write_object(emission, row, v);
        } else {
            read_object(emission, row, v);
        }
    }
}

// k : op(K), created
pub fn create_opposite(
    kinds: &Kinds,
    emission: &mut Emission,
    row: u8,
    public: Object,
    private: Object,
)
    requires { (public.0 < variables) × (private.0 < variables) }
    ensures { Surveys (kind_in kinds.now) (creating_key_looks row (op_key public.0 private.0)) emission.old emission.new }
{
    create_variable(kinds, emission, row, private);
    write_object(emission, row, public);
}

// The key of a created E or S, by its form.
pub fn create_key(kinds: &Kinds, emission: &mut Emission, row: u8, word: u64)
    requires { ((pattern_fields word).f < 3) × ((pattern_fields word).x < variables) }
    ensures { Surveys (kind_in kinds.now) (creating_key_looks row (key_by (pattern_fields word))) emission.old emission.new }
{
    let key = patterns::key(word);
    let by = patterns::key_form(word);
    match by {
        form::PLAIN_KEY => create_variable(kinds, emission, row, key),
        form::OPPOSITE_KEY => create_opposite(kinds, emission, row, key, patterns::y(word)),
        _ => derive_key(emission, row, key, patterns::y(word)),
    }
}
