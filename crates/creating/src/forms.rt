// The forms with no part: at most seven words each.
ghost use Rattle.std.specs.Prelude.{List, ℕ, ◌<◌};
ghost use Rattle.numbers.specs.Limits.{variables};
ghost use Rattle.patterns.specs.Pattern.{object, constant, opposite, hash};
ghost use Rattle.knowing.specs.Meets.{Does, RoomFor};
ghost use Rattle.creating.specs.Creates.{pattern_code};

use crate::keys;
use emission::instructions;
use knowing::{Code, Emission};
use layout::Kinds;
use numbers::{Object, Raw};

// v
pub fn create_object(kinds: &Kinds, code: &mut Code, emission: &mut Emission, row: u8, v: Object)
    requires v_lt_variables { v.0 < variables }
    requires room_for { RoomFor 7 1 emission.old }
    ensures { Does (pattern_code kinds.now (object row v.0)) 7 1 emission.old code.old emission.new code.new }
{
    keys::get_variable(kinds, code, emission, row, v);
    instructions::encode(code, emission, row, v);
}

// c : C, whatever the kinds
pub fn create_constant(code: &mut Code, emission: &mut Emission, row: u8, c: Object, byte: u8)
    requires c_lt_variables { c.0 < variables }
    requires room_for { RoomFor 7 1 emission.old }
    ensures { (kinds : List ℕ) → Does (pattern_code kinds (constant row c.0 byte)) 7 1 emission.old code.old emission.new code.new }
{
    instructions::store_const(code, emission, row, c, byte);
    instructions::encode(code, emission, row, c);
}

// k : op(K)
pub fn create_opposite(
    kinds: &Kinds,
    code: &mut Code,
    emission: &mut Emission,
    row: u8,
    public: Object,
    private: Object,
)
    requires public_lt_variables { (public.0 < variables) × (private.0 < variables) }
    requires room_for { RoomFor 7 1 emission.old }
    ensures { Does (pattern_code kinds.now (opposite row public.0 private.0)) 7 1 emission.old code.old emission.new code.new }
{
    keys::opposite_key(kinds, code, emission, row, public, private);
    instructions::encode(code, emission, row, public);
}

// h : H(r), whatever the kinds
pub fn create_hash(code: &mut Code, emission: &mut Emission, row: u8, h: Object, r: Raw)
    requires h_lt_variables { h.0 < variables }
    requires room_for { RoomFor 7 1 emission.old }
    ensures { (kinds : List ℕ) → Does (pattern_code kinds (hash row h.0 r.0)) 7 1 emission.old code.old emission.new code.new }
{
    instructions::load(code, emission, row, r);
    instructions::hash(code, emission, row, h);
    instructions::decode(code, emission, row, h);
}
