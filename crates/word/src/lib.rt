// Words of bytes, high byte first.
#![tactic(auto)]

ghost use Rattle.std.specs.Prelude.{◌≡◌, ◌++◌, ◌+◌, ◌*◌, ◌/◌, ◌≤◌, ◌<◌, length, take, drop};
ghost use Rattle.std.proofs.lemmas.List.Edits.{sets};
ghost use Rattle.word.specs.Bytes.{number, bytes_of, elements, spelled};

// A byte that was read, with its bound.
fn wide(byte: u8) -> u16
    ensures { (result ≡ byte) × (result < 256) }
{
    byte as u16
}

// The number that two bytes write, from a place on.
pub fn pair_at(bytes: &[u8], at: usize) -> u16
    requires { at + 2 ≤ length bytes.now }
    ensures { result ≡ number (take 2 (drop at bytes.now)) }
{
    wide(bytes[at]) * 256 + wide(bytes[at + 1])
}

pub fn quad_at(bytes: &[u8], at: usize) -> u32
    requires { at + 4 ≤ length bytes.now }
    ensures { result ≡ number (take 4 (drop at bytes.now)) }
{
    (pair_at(bytes, at) as u32) * 65536 + (pair_at(bytes, at + 2) as u32)
}

// Four pairs in one sum: the compiler then loads the eight bytes at once.
pub fn word_at(bytes: &[u8], at: usize) -> u64
    requires { at + 8 ≤ length bytes.now }
    ensures { result ≡ number (take 8 (drop at bytes.now)) }
{
    (pair_at(bytes, at) as u64) * 281474976710656
        + (pair_at(bytes, at + 2) as u64) * 4294967296
        + (pair_at(bytes, at + 4) as u64) * 65536
        + (pair_at(bytes, at + 6) as u64)
}

// A number into two bytes, from a place on.
pub fn put_pair(bytes: &mut [u8], at: usize, value: u16)
    requires { at + 2 ≤ length bytes.old }
    ensures { bytes.new ≡ sets bytes.old at (bytes_of 2 value) }
{
    bytes[at] = (value / 256) as u8;
    bytes[at + 1] = (value % 256) as u8;
}

pub fn put_quad(bytes: &mut [u8], at: usize, value: u32)
    requires { at + 4 ≤ length bytes.old }
    ensures { bytes.new ≡ sets bytes.old at (bytes_of 4 value) }
{
    put_pair(bytes, at, (value / 65536) as u16);
    put_pair(bytes, at + 2, (value % 65536) as u16);
}

pub fn put_word(bytes: &mut [u8], at: usize, value: u64)
    requires { at + 8 ≤ length bytes.old }
    ensures { bytes.new ≡ sets bytes.old at (bytes_of 8 value) }
{
    put_quad(bytes, at, (value / 4294967296) as u32);
    put_quad(bytes, at + 4, (value % 4294967296) as u32);
}

// The three sizes stay three functions each: a trait of elements, with its sizes, numbers and laws, and its three impls are longer than what they would replace.

// The elements of two bytes to the front of a slice, two at a time: one at a time, the compiler takes the bytes apart. An element's place says where its bytes are.
pub fn unpack_pairs(bytes: &[u8], out: &mut [u16])
    requires { length bytes.now / 2 ≤ length out.old }
    ensures { out.new ≡ elements 2 bytes.now ++ drop (length bytes.now / 2) out.old }
{
    let count = bytes.len() / 2;
    let mut place: usize = 0;
    while place + 1 < count {
        out[place] = pair_at(bytes, 2 * place);
        out[place + 1] = pair_at(bytes, 2 * place + 2);
        place += 2;
    }
    if place < count {
        out[place] = pair_at(bytes, 2 * place);
    }
}

pub fn unpack_quads(bytes: &[u8], out: &mut [u32])
    requires { length bytes.now / 4 ≤ length out.old }
    ensures { out.new ≡ elements 4 bytes.now ++ drop (length bytes.now / 4) out.old }
{
    let count = bytes.len() / 4;
    for place in 0..count {
        out[place] = quad_at(bytes, 4 * place);
    }
}

pub fn unpack_words(bytes: &[u8], out: &mut [u64])
    requires { length bytes.now / 8 ≤ length out.old }
    ensures { out.new ≡ elements 8 bytes.now ++ drop (length bytes.now / 8) out.old }
{
    let count = bytes.len() / 8;
    for place in 0..count {
        out[place] = word_at(bytes, 8 * place);
    }
}

// The bytes of all elements.
pub fn pack_pairs(values: &[u16], bytes: &mut [u8])
    requires { length bytes.old ≡ 2 * length values.now }
    ensures { bytes.new ≡ spelled 2 values.now }
{
    for (place, &value) in values.iter().enumerate() {
        put_pair(bytes, 2 * place, value);
    }
}

pub fn pack_quads(values: &[u32], bytes: &mut [u8])
    requires { length bytes.old ≡ 4 * length values.now }
    ensures { bytes.new ≡ spelled 4 values.now }
{
    for (place, &value) in values.iter().enumerate() {
        put_quad(bytes, 4 * place, value);
    }
}

pub fn pack_words(values: &[u64], bytes: &mut [u8])
    requires { length bytes.old ≡ 8 * length values.now }
    ensures { bytes.new ≡ spelled 8 values.now }
{
    for (place, &value) in values.iter().enumerate() {
        put_word(bytes, 8 * place, value);
    }
}
