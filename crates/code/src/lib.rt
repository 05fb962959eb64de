// The instruction and its word.
#![tactic(auto)]

pub mod fields;
pub mod frame;
pub mod operations;
pub mod words;

ghost use Rattle.std.specs.Prelude.{◌≡◌};
ghost use Rattle.code.specs.Instruction.{word_of, instruction_of};

use numbers::{Object, Raw};

// Figure 4, in the order of the operations' numbers.
#[derive(Clone, Copy)]
pub enum Instruction {
    Load(Raw),
    Store(Raw),
    StoreConst(Object, u8),
    Decode(Object),
    Encode(Object),
    Create(Object),
    AnalyzeTuple(Object, Raw, u8),
    CreateTuple(Object, Raw, u8),
    Opposite(Object, Object),
    KeyOf,
    Match(Raw),
    Encrypt(Object),
    Decrypt(Object),
    Sign(Object),
    Verify(Object, Raw),
    Hash(Object),
}

// The word of an instruction that is not known beforehand.
pub fn word_of(instruction: Instruction) -> u32
    ensures { result ≡ word_of instruction }
{
    match instruction {
        Instruction::Load(r) => words::load(r),
        Instruction::Store(r) => words::store(r),
        Instruction::StoreConst(c, byte) => words::store_const(c, byte),
        Instruction::Decode(v) => words::decode(v),
        Instruction::Encode(v) => words::encode(v),
        Instruction::Create(v) => words::create(v),
        Instruction::AnalyzeTuple(t, first, n) => words::analyze_tuple(t, first, n),
        Instruction::CreateTuple(t, first, n) => words::create_tuple(t, first, n),
        Instruction::Opposite(private, public) => words::opposite(private, public),
        Instruction::KeyOf => words::key_of(),
        Instruction::Match(r) => words::compare(r),
        Instruction::Encrypt(v) => words::encrypt(v),
        Instruction::Decrypt(v) => words::decrypt(v),
        Instruction::Sign(v) => words::sign(v),
        Instruction::Verify(v, r) => words::verify(v, r),
        Instruction::Hash(h) => words::hash(h),
    }
}

// What a word says: an instruction, or none where there is none of its operation. Fields that the instruction does not use are not looked at.
pub fn instruction_of(word: u32) -> Option<Instruction>
    ensures { result ≡ instruction_of word }
{
    let a = (word / fields::A % fields::OPERANDS) as u8;
    let b = (word / fields::B % fields::OPERANDS) as u8;
    let n = (word / fields::N % fields::COUNTS) as u8;
    match word / fields::OPERATION {
        operations::LOAD => Some(Instruction::Load(Raw(a))),
        operations::STORE => Some(Instruction::Store(Raw(a))),
        operations::STORE_CONST => Some(Instruction::StoreConst(Object(a), b)),
        operations::DECODE => Some(Instruction::Decode(Object(a))),
        operations::ENCODE => Some(Instruction::Encode(Object(a))),
        operations::CREATE => Some(Instruction::Create(Object(a))),
        operations::ANALYZE_TUPLE => Some(Instruction::AnalyzeTuple(Object(a), Raw(b), n)),
        operations::CREATE_TUPLE => Some(Instruction::CreateTuple(Object(a), Raw(b), n)),
        operations::OPPOSITE => Some(Instruction::Opposite(Object(a), Object(b))),
        operations::KEY_OF => Some(Instruction::KeyOf),
        operations::MATCH => Some(Instruction::Match(Raw(a))),
        operations::ENCRYPT => Some(Instruction::Encrypt(Object(a))),
        operations::DECRYPT => Some(Instruction::Decrypt(Object(a))),
        operations::SIGN => Some(Instruction::Sign(Object(a))),
        operations::VERIFY => Some(Instruction::Verify(Object(a), Raw(b))),
        operations::HASH => Some(Instruction::Hash(Object(a))),
        _ => None,
    }
}
