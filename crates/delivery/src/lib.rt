// Words that come to a lent slice, and the part of it that they use.
#![tactic(auto)]

ghost use Rattle.std.specs.Prelude.{◌≡◌, ◌++◌, ◌≤◌, length, drop};
ghost use Rattle.numbers.specs.Limits.{most_code_words};
ghost use Rattle.calls.specs.Compile.{written, used_part};

use answers::Compiled;
use numbers::limits::MOST_CODE_WORDS;

// Of a large array only the length is promised: a goal would spell every zero.
pub fn no_words() -> [u32; MOST_CODE_WORDS]
    ensures { length result ≡ most_code_words }
{
    [0u32; MOST_CODE_WORDS]
}

// The words in front; what stands behind them stays.
pub fn copy(words: &[u32], code: &mut [u32])
    requires { length words.now ≤ length code.old }
    ensures { code.new ≡ words.now ++ drop (length words.now) code.old }
{
    code[..words.len()].copy_from_slice(words);
}

// 8 where the words do not fit; words past them stay.
pub fn deliver(words: &[u32], code: &mut [u32]) -> Compiled
    requires { length words.now ≤ most_code_words }
    ensures { record { answer = result; code = code.new } ≡ written words.now code.old }
{
    let count = words.len() as u32;
    if code.len() < words.len() {
        return Compiled::CodeTooShort(count);
    }
    copy(words, code);
    Compiled::Done(count)
}

// The first n words of the lent code slice, or an empty part where n exceeds its length. It is the slice's own front, and lent to
// be read: no word of the slice changes.
pub fn used(code: &[u32], n: usize) -> &[u32]
    ensures { (result.now ≡ used_part n code.now) × (result.ref_ptr ≡ code.entry.ref_ptr) }
{
    if n <= code.len() {
        &code[..n]
    } else {
        &code[..0]
    }
}
