// Variables and keys, each with at most three words.
ghost use Rattle.std.specs.Prelude.{List, ℕ, ◌<◌};
ghost use Rattle.numbers.specs.Limits.{variables};
ghost use Rattle.patterns.specs.Pattern.{op_key, certified_key};
ghost use Rattle.patterns.specs.Row.{pattern_fields};
ghost use Rattle.patterns.specs.Tree.{key_by};
ghost use Rattle.knowing.specs.Meets.{Does, RoomFor};
ghost use Rattle.creating.specs.Creates.{variable_code, key_code};

use answers::Compiled;
use emission::instructions;
use knowing::{Code, Emission, object_known, refuse};
use layout::{Kinds, creatable};
use numbers::Object;
use patterns::forms as form;

// Nothing for a variable that is set; a creatable one gets its CREATE, any other is 7.
pub fn get_variable(kinds: &Kinds, code: &mut Code, emission: &mut Emission, row: u8, v: Object)
    requires v_lt_variables { v.0 < variables }
    requires room_for { RoomFor 1 0 emission.old }
    ensures { Does (variable_code kinds.now row v.0) 1 0 emission.old code.old emission.new code.new }
{
    if !object_known(emission, v) {
        if creatable(kinds, v) {
            instructions::create(code, emission, row, v);
        } else {
            refuse(emission, Compiled::ReadWhileUnset(row as u32));
        }
    }
}

// k : op(K)
pub fn opposite_key(
    kinds: &Kinds,
    code: &mut Code,
    emission: &mut Emission,
    row: u8,
    public: Object,
    private: Object,
)
    requires public_lt_variables { (public.0 < variables) × (private.0 < variables) }
    requires room_for { RoomFor 3 0 emission.old }
    ensures { Does (key_code kinds.now row (op_key public.0 private.0)) 3 0 emission.old code.old emission.new code.new }
{
    get_variable(kinds, code, emission, row, private);
    instructions::opposite(code, emission, row, private, public);
}

// k : keyOf(a), whatever the kinds
pub fn certified_key(code: &mut Code, emission: &mut Emission, row: u8, key: Object, agent: Object)
    requires key_lt_variables { key.0 < variables }
    requires room_for { RoomFor 3 0 emission.old }
    ensures { (kinds : List ℕ) → Does (key_code kinds row (certified_key key.0 agent.0)) 3 0 emission.old code.old emission.new code.new }
{
    instructions::encode(code, emission, row, agent);
    instructions::key_of(code, emission, row);
    instructions::decode(code, emission, row, key);
}

// The key of E and S, by its form.
pub fn create_key(kinds: &Kinds, code: &mut Code, emission: &mut Emission, row: u8, word: u64)
    requires word_bound { ((pattern_fields word).f < 3) × ((pattern_fields word).x < variables) }
    requires room_for { RoomFor 3 0 emission.old }
    ensures { Does (key_code kinds.now row (key_by (pattern_fields word))) 3 0 emission.old code.old emission.new code.new }
{
    let key = patterns::key(word);
    let by = patterns::key_form(word);
    match by {
        form::PLAIN_KEY => get_variable(kinds, code, emission, row, key),
        form::OPPOSITE_KEY => opposite_key(kinds, code, emission, row, key, patterns::y(word)),
        _ => certified_key(code, emission, row, key, patterns::y(word)),
    }
}
