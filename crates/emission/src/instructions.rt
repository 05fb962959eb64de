// One instruction for a pattern row, in the order of figure 4: what it reads, what it writes, and its word. A function each, so that no match
// tells an instruction apart that is known beforehand.
ghost use Rattle.std.specs.Prelude.{◌≡◌, ◌<◌};
ghost use Rattle.numbers.specs.Limits.{variables};
ghost use Rattle.word.specs.Fields.{join};
ghost use Rattle.code.specs.Instruction.{word_widths, fields_of};
ghost use Rattle.code.specs.declared.Instruction.TheVariants.{
  Load,
  Store,
  StoreConst,
  Decode,
  Encode,
  Create,
  AnalyzeTuple,
  CreateTuple,
  Opposite,
  KeyOf,
  Match,
  Encrypt,
  Decrypt,
  Sign,
  Verify,
  Hash,
};
ghost use Rattle.theory.specs.Emission.{emit};
ghost use Rattle.knowing.specs.Steps.{read_object, write_object, read_raw, looks};
ghost use Rattle.knowing.specs.Meets.{Does, RoomFor};

use code::{Instruction, words};
use knowing::{Code, Emission, append, read_object, read_raw, write_object, write_raw};
use numbers::{Object, Raw};

// An instruction that only reads an object variable. The contract speaks of it; the code needs its word alone.
fn emit_reading(
    code: &mut Code,
    emission: &mut Emission,
    row: u8,
    v: Object,
    instruction: Instruction,
    word: u32,
)
    requires room_for { RoomFor 1 0 emission.old }
    requires instruction_value { (looks row instruction ≡ read_object row v.0) × (word ≡ join word_widths (fields_of instruction)) }
    ensures { Does (emit row instruction) 1 0 emission.old code.old emission.new code.new }
{
    read_object(emission, row, v);
    append(code, emission, word);
}

// One that only writes an object variable.
fn emit_writing(
    code: &mut Code,
    emission: &mut Emission,
    row: u8,
    v: Object,
    instruction: Instruction,
    word: u32,
)
    requires room_for { RoomFor 1 0 emission.old }
    requires v_lt_variables { v.0 < variables }
    requires instruction_value { (looks row instruction ≡ write_object row v.0) × (word ≡ join word_widths (fields_of instruction)) }
    ensures { Does (emit row instruction) 1 0 emission.old code.old emission.new code.new }
{
    write_object(emission, row, v);
    append(code, emission, word);
}

// One that only reads a raw variable.
fn emit_reading_raw(
    code: &mut Code,
    emission: &mut Emission,
    row: u8,
    r: Raw,
    instruction: Instruction,
    word: u32,
)
    requires room_for { RoomFor 1 0 emission.old }
    requires instruction_value { (looks row instruction ≡ read_raw row r.0) × (word ≡ join word_widths (fields_of instruction)) }
    ensures { Does (emit row instruction) 1 0 emission.old code.old emission.new code.new }
{
    read_raw(emission, row, r);
    append(code, emission, word);
}

pub fn load(code: &mut Code, emission: &mut Emission, row: u8, r: Raw)
    requires { RoomFor 1 0 emission.old }
    ensures { Does (emit row (Load r)) 1 0 emission.old code.old emission.new code.new }
{
    emit_reading_raw(code, emission, row, r, Instruction::Load(r), words::load(r));
}

pub fn store(code: &mut Code, emission: &mut Emission, row: u8, r: Raw)
    requires { RoomFor 1 0 emission.old }
    ensures { Does (emit row (Store r)) 1 0 emission.old code.old emission.new code.new }
{
    write_raw(emission, row, r);
    append(code, emission, words::store(r));
}

pub fn store_const(code: &mut Code, emission: &mut Emission, row: u8, c: Object, byte: u8)
    requires room_for { RoomFor 1 0 emission.old }
    requires c_lt_variables { c.0 < variables }
    ensures { Does (emit row (StoreConst c byte)) 1 0 emission.old code.old emission.new code.new }
{
    emit_writing(
        code,
        emission,
        row,
        c,
        Instruction::StoreConst(c, byte),
        words::store_const(c, byte),
    );
}

pub fn decode(code: &mut Code, emission: &mut Emission, row: u8, v: Object)
    requires room_for { RoomFor 1 0 emission.old }
    requires v_lt_variables { v.0 < variables }
    ensures { Does (emit row (Decode v)) 1 0 emission.old code.old emission.new code.new }
{
    emit_writing(
        code,
        emission,
        row,
        v,
        Instruction::Decode(v),
        words::decode(v),
    );
}

pub fn encode(code: &mut Code, emission: &mut Emission, row: u8, v: Object)
    requires { RoomFor 1 0 emission.old }
    ensures { Does (emit row (Encode v)) 1 0 emission.old code.old emission.new code.new }
{
    emit_reading(
        code,
        emission,
        row,
        v,
        Instruction::Encode(v),
        words::encode(v),
    );
}

pub fn create(code: &mut Code, emission: &mut Emission, row: u8, v: Object)
    requires room_for { RoomFor 1 0 emission.old }
    requires v_lt_variables { v.0 < variables }
    ensures { Does (emit row (Create v)) 1 0 emission.old code.old emission.new code.new }
{
    emit_writing(
        code,
        emission,
        row,
        v,
        Instruction::Create(v),
        words::create(v),
    );
}

pub fn analyze_tuple(
    code: &mut Code,
    emission: &mut Emission,
    row: u8,
    t: Object,
    first: Raw,
    n: u8,
)
    requires { RoomFor 1 0 emission.old }
    ensures { Does (emit row (AnalyzeTuple t first n)) 1 0 emission.old code.old emission.new code.new }
{
    emit_reading(
        code,
        emission,
        row,
        t,
        Instruction::AnalyzeTuple(t, first, n),
        words::analyze_tuple(t, first, n),
    );
}

pub fn create_tuple(code: &mut Code, emission: &mut Emission, row: u8, t: Object, first: Raw, n: u8)
    requires room_for { RoomFor 1 0 emission.old }
    requires t_lt_variables { t.0 < variables }
    ensures { Does (emit row (CreateTuple t first n)) 1 0 emission.old code.old emission.new code.new }
{
    emit_writing(
        code,
        emission,
        row,
        t,
        Instruction::CreateTuple(t, first, n),
        words::create_tuple(t, first, n),
    );
}

pub fn opposite(code: &mut Code, emission: &mut Emission, row: u8, private: Object, public: Object)
    requires room_for { RoomFor 1 0 emission.old }
    requires public_lt_variables { public.0 < variables }
    ensures { Does (emit row (Opposite private public)) 1 0 emission.old code.old emission.new code.new }
{
    read_object(emission, row, private);
    write_object(emission, row, public);
    append(code, emission, words::opposite(private, public));
}

pub fn key_of(code: &mut Code, emission: &mut Emission, row: u8)
    requires { RoomFor 1 0 emission.old }
    ensures { Does (emit row KeyOf) 1 0 emission.old code.old emission.new code.new }
{
    append(code, emission, words::key_of());
}

pub fn compare(code: &mut Code, emission: &mut Emission, row: u8, r: Raw)
    requires { RoomFor 1 0 emission.old }
    ensures { Does (emit row (Match r)) 1 0 emission.old code.old emission.new code.new }
{
    emit_reading_raw(
        code,
        emission,
        row,
        r,
        Instruction::Match(r),
        words::compare(r),
    );
}

pub fn encrypt(code: &mut Code, emission: &mut Emission, row: u8, v: Object)
    requires { RoomFor 1 0 emission.old }
    ensures { Does (emit row (Encrypt v)) 1 0 emission.old code.old emission.new code.new }
{
    emit_reading(
        code,
        emission,
        row,
        v,
        Instruction::Encrypt(v),
        words::encrypt(v),
    );
}

pub fn decrypt(code: &mut Code, emission: &mut Emission, row: u8, v: Object)
    requires { RoomFor 1 0 emission.old }
    ensures { Does (emit row (Decrypt v)) 1 0 emission.old code.old emission.new code.new }
{
    emit_reading(
        code,
        emission,
        row,
        v,
        Instruction::Decrypt(v),
        words::decrypt(v),
    );
}

pub fn sign(code: &mut Code, emission: &mut Emission, row: u8, v: Object)
    requires { RoomFor 1 0 emission.old }
    ensures { Does (emit row (Sign v)) 1 0 emission.old code.old emission.new code.new }
{
    emit_reading(code, emission, row, v, Instruction::Sign(v), words::sign(v));
}

pub fn verify(code: &mut Code, emission: &mut Emission, row: u8, v: Object, r: Raw)
    requires { RoomFor 1 0 emission.old }
    ensures { Does (emit row (Verify v r)) 1 0 emission.old code.old emission.new code.new }
{
    read_object(emission, row, v);
    read_raw(emission, row, r);
    append(code, emission, words::verify(v, r));
}

pub fn hash(code: &mut Code, emission: &mut Emission, row: u8, h: Object)
    requires { RoomFor 1 0 emission.old }
    ensures { Does (emit row (Hash h)) 1 0 emission.old code.old emission.new code.new }
{
    append(code, emission, words::hash(h));
}
