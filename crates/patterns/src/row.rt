// The fields of a pattern row.
ghost use Rattle.std.specs.Prelude.{◌≡◌};
ghost use Rattle.patterns.specs.Row.{pattern_fields};

use numbers::{Object, Raw};

pub fn tag(word: u64) -> u8
    ensures { result ≡ (pattern_fields word).tag }
{
    ((word >> 60) % 16) as u8
}

// V, the variable before the colon.
pub fn variable(word: u64) -> Object
    ensures { result.0 ≡ (pattern_fields word).v }
{
    Object(((word >> 54) % 64) as u8)
}

// F, the form of a key.
pub fn key_form(word: u64) -> u8
    ensures { result ≡ (pattern_fields word).f }
{
    ((word >> 52) % 4) as u8
}

// X, the byte of a constant.
pub fn byte(word: u64) -> u8
    ensures { result ≡ (pattern_fields word).x }
{
    ((word >> 44) % 256) as u8
}

// X, the variable of a key.
pub fn key(word: u64) -> Object
    ensures { result.0 ≡ (pattern_fields word).x }
{
    Object(byte(word))
}

// Y, what a key is the opposite or the agent's key of.
pub fn y(word: u64) -> Object
    ensures { result.0 ≡ (pattern_fields word).y }
{
    Object(((word >> 38) % 64) as u8)
}

// R, the raw variable.
pub fn raw(word: u64) -> Raw
    ensures { result.0 ≡ (pattern_fields word).r }
{
    Raw(((word >> 32) % 64) as u8)
}

// n, the number of children.
pub fn count(word: u64) -> u8
    ensures { result ≡ (pattern_fields word).n }
{
    ((word >> 29) % 8) as u8
}

// The four slots for children.
pub fn slots(word: u64) -> [u8; 4]
    ensures { result ≡ (pattern_fields word).slots }
{
    [
        ((word >> 22) % 128) as u8,
        ((word >> 15) % 128) as u8,
        ((word >> 8) % 128) as u8,
        ((word >> 1) % 128) as u8,
    ]
}

pub fn spare(word: u64) -> u8
    ensures { result ≡ (pattern_fields word).spare }
{
    (word % 2) as u8
}
