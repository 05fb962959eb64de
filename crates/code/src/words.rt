// The word of each instruction, operands into A and then B, in the order of the operations' numbers. A function each, for an instruction that is
// known beforehand.
ghost use Rattle.std.specs.Prelude.{◌≡◌, [], ◌∷◌, ◌<◌};
ghost use Rattle.word.specs.Fields.{join};
ghost use Rattle.code.specs.Instruction.{word_widths, fields_of};
ghost use Rattle.code.specs.declared.Instruction.TheVariants.{
  Load,
  Store,
  StoreConst,
  Decode,
  Encode,
  Create,
  AnalyzeTuple,
  CreateTuple,
  Opposite,
  KeyOf,
  Match,
  Encrypt,
  Decrypt,
  Sign,
  Verify,
  Hash,
};

use crate::{fields, operations};
use numbers::{Object, Raw};

// Operation, A, B and n in their fields; the sum fits even where n is too wide for its own.
fn packed(operation: u32, a: u8, b: u8, n: u8) -> u32
    requires { operation < 18 }
    ensures { result ≡ join word_widths (operation ∷ a ∷ b ∷ n ∷ 0 ∷ []) }
{
    operation * fields::OPERATION
        + (a as u32) * fields::A
        + (b as u32) * fields::B
        + (n as u32) * fields::N
}

pub fn load(r: Raw) -> u32
    ensures { result ≡ join word_widths (fields_of (Load r)) }
{
    packed(operations::LOAD, r.0, 0, 0)
}

pub fn store(r: Raw) -> u32
    ensures { result ≡ join word_widths (fields_of (Store r)) }
{
    packed(operations::STORE, r.0, 0, 0)
}

pub fn store_const(c: Object, byte: u8) -> u32
    ensures { result ≡ join word_widths (fields_of (StoreConst c byte)) }
{
    packed(operations::STORE_CONST, c.0, byte, 0)
}

pub fn decode(v: Object) -> u32
    ensures { result ≡ join word_widths (fields_of (Decode v)) }
{
    packed(operations::DECODE, v.0, 0, 0)
}

pub fn encode(v: Object) -> u32
    ensures { result ≡ join word_widths (fields_of (Encode v)) }
{
    packed(operations::ENCODE, v.0, 0, 0)
}

pub fn create(v: Object) -> u32
    ensures { result ≡ join word_widths (fields_of (Create v)) }
{
    packed(operations::CREATE, v.0, 0, 0)
}

pub fn analyze_tuple(t: Object, first: Raw, n: u8) -> u32
    ensures { result ≡ join word_widths (fields_of (AnalyzeTuple t first n)) }
{
    packed(operations::ANALYZE_TUPLE, t.0, first.0, n)
}

pub fn create_tuple(t: Object, first: Raw, n: u8) -> u32
    ensures { result ≡ join word_widths (fields_of (CreateTuple t first n)) }
{
    packed(operations::CREATE_TUPLE, t.0, first.0, n)
}

pub fn opposite(private: Object, public: Object) -> u32
    ensures { result ≡ join word_widths (fields_of (Opposite private public)) }
{
    packed(operations::OPPOSITE, private.0, public.0, 0)
}

pub fn key_of() -> u32
    ensures { result ≡ join word_widths (fields_of KeyOf) }
{
    packed(operations::KEY_OF, 0, 0, 0)
}

pub fn compare(r: Raw) -> u32
    ensures { result ≡ join word_widths (fields_of (Match r)) }
{
    packed(operations::MATCH, r.0, 0, 0)
}

pub fn encrypt(v: Object) -> u32
    ensures { result ≡ join word_widths (fields_of (Encrypt v)) }
{
    packed(operations::ENCRYPT, v.0, 0, 0)
}

pub fn decrypt(v: Object) -> u32
    ensures { result ≡ join word_widths (fields_of (Decrypt v)) }
{
    packed(operations::DECRYPT, v.0, 0, 0)
}

pub fn sign(v: Object) -> u32
    ensures { result ≡ join word_widths (fields_of (Sign v)) }
{
    packed(operations::SIGN, v.0, 0, 0)
}

pub fn verify(v: Object, r: Raw) -> u32
    ensures { result ≡ join word_widths (fields_of (Verify v r)) }
{
    packed(operations::VERIFY, v.0, r.0, 0)
}

pub fn hash(h: Object) -> u32
    ensures { result ≡ join word_widths (fields_of (Hash h)) }
{
    packed(operations::HASH, h.0, 0, 0)
}
