// Decimal numbers on lines, into a lent slice; `reading` has the way back.
#![tactic(auto)]

pub mod reading;

ghost use Rattle.std.specs.Prelude.{◌+◌, ◌≤◌, [], ◌∷◌, length};
ghost use Rattle.text.specs.Lines.{digits, decimal, gap, spaced, line, word_line};
ghost use Rattle.text.specs.Written.{Wrote};

// A number of 64 bits has at most so many digits.
const MOST_DIGITS: usize = 20;

// One byte, where there is room for it.
pub fn put_byte(out: &mut [u8], at: usize, byte: u8) -> usize
    requires { at ≤ 65536 }
    ensures { Wrote (byte ∷ []) out.old at out.new result }
{
    if out.len() <= at {
        return at + 1;
    }
    out[at] = byte;
    at + 1
}

// A number of at most so many digits, the higher ones first.
fn put_digits(out: &mut [u8], at: usize, n: u32, most: usize) -> usize
    requires { (at ≤ 65516) × (most ≤ 20) }
    ensures { Wrote (digits most n) out.old at out.new result }
{
    if most == 0 {
        return at;
    }
    if n < 10 {
        return put_byte(out, at, b'0' + n as u8);
    }
    let next = put_digits(out, at, n / 10, most - 1);
    put_byte(out, next, b'0' + (n % 10) as u8)
}

// A number without leading zeros.
pub fn put_decimal(out: &mut [u8], at: usize, n: u32) -> usize
    requires { at ≤ 65516 }
    ensures { Wrote (decimal n) out.old at out.new result }
{
    put_digits(out, at, n, MOST_DIGITS)
}

// Bytes as they are.
pub fn put_bytes(out: &mut [u8], at: usize, bytes: &[u8]) -> usize
    requires { at + length bytes.now ≤ 65536 }
    ensures { Wrote bytes.now out.old at out.new result }
{
    let mut next = at;
    for &byte in bytes {
        next = put_byte(out, next, byte);
    }
    next
}

// A space before each number but the first.
fn put_gap(out: &mut [u8], at: usize, place: usize) -> usize
    requires { at ≤ 65536 }
    ensures { Wrote (gap place) out.old at out.new result }
{
    if place == 0 {
        return at;
    }
    put_byte(out, at, b' ')
}

// The numbers, one space between.
fn put_spaced(out: &mut [u8], at: usize, numbers: &[u32]) -> usize
    requires { (at ≤ 65200) × (length numbers.now ≤ 6) }
    ensures { Wrote (spaced numbers.now) out.old at out.new result }
{
    let mut next = at;
    for (place, &number) in numbers.iter().enumerate() {
        let there = put_gap(out, next, place);
        next = put_decimal(out, there, number);
    }
    next
}

// A line of numbers.
pub fn put_line(out: &mut [u8], at: usize, numbers: &[u32]) -> usize
    requires { (at ≤ 65200) × (length numbers.now ≤ 6) }
    ensures { Wrote (line numbers.now) out.old at out.new result }
{
    let next = put_spaced(out, at, numbers);
    put_byte(out, next, b'\n')
}

// A line that begins with a word.
pub fn put_word_line(out: &mut [u8], at: usize, word: &[u8], numbers: &[u32]) -> usize
    requires { (at + length word.now ≤ 65000) × (length numbers.now ≤ 6) }
    ensures { Wrote (word_line word.now numbers.now) out.old at out.new result }
{
    let after = put_bytes(out, at, word);
    let next = put_byte(out, after, b' ');
    put_line(out, next, numbers)
}
