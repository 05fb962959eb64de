// Operands that fit their instruction, and good words: refusal 9.
#![tactic(auto)]

ghost use Rattle.std.specs.Prelude.{◌≡◌, [], ◌∷◌, ◌<◌, ◌≤◌, length, get_or, take};
ghost use Rattle.code.specs.Words.{has_kind, cells_fit, operands_fit, good_word, bad_word};

use code::{Instruction, instruction_of, word_of};
use numbers::limits::{MESSAGE_CELLS, MOST_PARTS, VARIABLES};
use numbers::{Object, Raw, kinds};
use stores::cells;

// The kind of an object variable; a number past the 64 variables has none.
fn kind_at(kinds: &[u8], v: Object) -> u8
    ensures { result ≡ get_or (take 64 kinds.now) v.0 0 }
{
    if (v.0 as usize) < VARIABLES {
        cells::kind_at(kinds, v)
    } else {
        0
    }
}

fn has_kind(kinds: &[u8], v: Object, kind: u8) -> bool
    requires { 0 < kind }
    ensures { result ≡ has_kind (λ n. get_or kinds.now n 0) v (kind ∷ []) }
{
    kind_at(kinds, v) == kind
}

fn has_either(kinds: &[u8], v: Object, first: u8, second: u8) -> bool
    requires { (0 < first) × (0 < second) }
    ensures { result ≡ has_kind (λ n. get_or kinds.now n 0) v (first ∷ second ∷ []) }
{
    let kind = kind_at(kinds, v);
    kind == first || kind == second
}

// Any kind but that of an undeclared variable.
fn declared(kinds: &[u8], v: Object) -> bool
    ensures { result ≡ has_kind (λ n. get_or kinds.now n 0) v (1 ∷ 2 ∷ 3 ∷ 4 ∷ 5 ∷ 6 ∷ 7 ∷ 8 ∷ 9 ∷ 10 ∷ []) }
{
    let kind = kind_at(kinds, v);
    kinds::BYTE <= kind && kind <= kinds::TUPLE
}

// So many consecutive message cells, at most four.
fn cells_fit(first: Raw, n: u8) -> bool
    ensures { result ≡ cells_fit first n }
{
    (n as usize) <= MOST_PARTS && (first.0 as usize) + (n as usize) <= MESSAGE_CELLS
}

// The kinds that figure 4 wants, and cells that are there.
fn operands_fit(kinds: &[u8], instruction: Instruction) -> bool
    ensures { result ≡ operands_fit (λ n. get_or kinds.now n 0) instruction }
{
    match instruction {
        Instruction::Load(_) => true,
        Instruction::Store(_) => true,
        Instruction::StoreConst(c, _) => has_kind(kinds, c, kinds::BYTE),
        Instruction::Decode(v) => declared(kinds, v),
        Instruction::Encode(v) => declared(kinds, v),
        Instruction::Create(v) => has_kind(kinds, v, kinds::NONCE)
            || has_either(kinds, v, kinds::PRIVATE_KEY, kinds::SHARED_KEY),
        Instruction::AnalyzeTuple(t, first, n) => has_kind(kinds, t, kinds::TUPLE)
            && cells_fit(first, n),
        Instruction::CreateTuple(t, first, n) => has_kind(kinds, t, kinds::TUPLE)
            && cells_fit(first, n),
        Instruction::Opposite(private, public) => has_kind(kinds, private, kinds::PRIVATE_KEY)
            && has_kind(kinds, public, kinds::PUBLIC_KEY),
        Instruction::KeyOf => true,
        Instruction::Match(_) => true,
        Instruction::Encrypt(v) => has_either(kinds, v, kinds::PUBLIC_KEY, kinds::SHARED_KEY),
        Instruction::Decrypt(v) => has_either(kinds, v, kinds::PRIVATE_KEY, kinds::SHARED_KEY),
        Instruction::Sign(v) => has_either(kinds, v, kinds::PRIVATE_KEY, kinds::SHARED_KEY),
        Instruction::Verify(v, _) => has_either(kinds, v, kinds::PUBLIC_KEY, kinds::SHARED_KEY),
        Instruction::Hash(h) => has_kind(kinds, h, kinds::HASH),
    }
}

// A good word is the word of its own instruction, so that what the instruction does not use is zero.
pub fn good_word(kinds: &[u8], word: u32) -> bool
    ensures { result ≡ good_word (λ n. get_or kinds.now n 0) word }
{
    match instruction_of(word) {
        Some(instruction) => word_of(instruction) == word && operands_fit(kinds, instruction),
        None => false,
    }
}

// Refusal 9.
pub fn first_bad_word(kinds: &[u8], code: &[u32]) -> Option<u32>
    requires { length code.now ≤ 65536 }
    ensures { result ≡ bad_word (λ n. get_or kinds.now n 0) code.now }
{
    for (place, &word) in code.iter().enumerate() {
        if !good_word(kinds, word) {
            return Some(place as u32);
        }
    }
    None
}
