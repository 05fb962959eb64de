// The forms with no part: at most seven words and one scratch number each.
ghost use Rattle.std.specs.Prelude.{◌<◌};
ghost use Rattle.numbers.specs.Limits.{variables};
ghost use Rattle.patterns.specs.Pattern.{op_key, certified_key, object, raw, constant, opposite, key_of, hash};
ghost use Rattle.theory.specs.Compilers.{compile↓, verifying};
ghost use Rattle.knowing.specs.Meets.{Does, RoomFor};

use emission::{instructions, scratch};
use knowing::{Code, Emission, object_known, raw_known, take};
use numbers::{Object, Raw};

// v
pub fn match_object(code: &mut Code, emission: &mut Emission, row: u8, v: Object)
    requires v_lt_variables { v.0 < variables }
    requires room_for { RoomFor 7 1 emission.old }
    ensures { Does (compile↓ (object row v.0)) 7 1 emission.old code.old emission.new code.new }
{
    if object_known(emission, v) {
        let s = scratch(take(emission, 1));
        instructions::store(code, emission, row, s);
        instructions::encode(code, emission, row, v);
        instructions::compare(code, emission, row, s);
    } else {
        instructions::decode(code, emission, row, v);
    }
}

// r
pub fn match_raw(code: &mut Code, emission: &mut Emission, row: u8, r: Raw)
    requires { RoomFor 7 1 emission.old }
    ensures { Does (compile↓ (raw row r.0)) 7 1 emission.old code.old emission.new code.new }
{
    if raw_known(emission, r) {
        instructions::compare(code, emission, row, r);
    } else {
        instructions::store(code, emission, row, r);
    }
}

// c : C
pub fn match_constant(code: &mut Code, emission: &mut Emission, row: u8, c: Object, byte: u8)
    requires c_lt_variables { c.0 < variables }
    requires room_for { RoomFor 7 1 emission.old }
    ensures { Does (compile↓ (constant row c.0 byte)) 7 1 emission.old code.old emission.new code.new }
{
    let s = scratch(take(emission, 1));
    instructions::store(code, emission, row, s);
    instructions::store_const(code, emission, row, c, byte);
    instructions::encode(code, emission, row, c);
    instructions::compare(code, emission, row, s);
}

// k : op(K)
pub fn match_opposite(
    code: &mut Code,
    emission: &mut Emission,
    row: u8,
    public: Object,
    private: Object,
)
    requires public_lt_variables { public.0 < variables }
    requires room_for { RoomFor 7 1 emission.old }
    ensures { Does (compile↓ (opposite row public.0 private.0)) 7 1 emission.old code.old emission.new code.new }
{
    let s = scratch(take(emission, 1));
    instructions::store(code, emission, row, s);
    instructions::opposite(code, emission, row, private, public);
    instructions::encode(code, emission, row, public);
    instructions::compare(code, emission, row, s);
}

// k : keyOf(a)
pub fn match_key_of(code: &mut Code, emission: &mut Emission, row: u8, key: Object, agent: Object)
    requires key_lt_variables { key.0 < variables }
    requires room_for { RoomFor 7 1 emission.old }
    ensures { Does (compile↓ (key_of row key.0 agent.0)) 7 1 emission.old code.old emission.new code.new }
{
    instructions::decode(code, emission, row, key);
    let s = scratch(take(emission, 1));
    instructions::store(code, emission, row, s);
    instructions::encode(code, emission, row, agent);
    instructions::key_of(code, emission, row);
    instructions::compare(code, emission, row, s);
}

// h : H(r)
pub fn match_hash(code: &mut Code, emission: &mut Emission, row: u8, h: Object, r: Raw)
    requires h_lt_variables { h.0 < variables }
    requires room_for { RoomFor 7 1 emission.old }
    ensures { Does (compile↓ (hash row h.0 r.0)) 7 1 emission.old code.old emission.new code.new }
{
    instructions::decode(code, emission, row, h);
    let s = scratch(take(emission, 1));
    instructions::store(code, emission, row, s);
    instructions::load(code, emission, row, r);
    instructions::hash(code, emission, row, h);
    instructions::compare(code, emission, row, s);
}

// What k : op(K) verifies.
pub fn verify_opposite(
    code: &mut Code,
    emission: &mut Emission,
    row: u8,
    public: Object,
    private: Object,
    r: Raw,
)
    requires public_lt_variables { public.0 < variables }
    requires room_for { RoomFor 6 1 emission.old }
    ensures { Does (verifying row (op_key public.0 private.0) r.0) 6 1 emission.old code.old emission.new code.new }
{
    instructions::opposite(code, emission, row, private, public);
    instructions::verify(code, emission, row, public, r);
}

// What k : keyOf(a) verifies.
pub fn verify_certified(
    code: &mut Code,
    emission: &mut Emission,
    row: u8,
    key: Object,
    agent: Object,
    r: Raw,
)
    requires key_lt_variables { key.0 < variables }
    requires room_for { RoomFor 6 1 emission.old }
    ensures { Does (verifying row (certified_key key.0 agent.0) r.0) 6 1 emission.old code.old emission.new code.new }
{
    let s = scratch(take(emission, 1));
    instructions::store(code, emission, row, s);
    instructions::encode(code, emission, row, agent);
    instructions::key_of(code, emission, row);
    instructions::decode(code, emission, row, key);
    instructions::load(code, emission, row, s);
    instructions::verify(code, emission, row, key, r);
}
