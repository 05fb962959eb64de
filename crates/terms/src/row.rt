// A term row's fields, and the words of shapes.
ghost use Rattle.std.specs.Prelude.{◌≡◌, ◌+◌, ◌<◌, ◌≤◌, length};
ghost use Rattle.word.specs.Fields.{split, at};
ghost use Rattle.numbers.specs.Limits.{most_parts};
ghost use Rattle.terms.specs.Shape.{atom, encrypted, signed, hashed, tupled, parts_of};
ghost use Rattle.terms.specs.Row.{term_widths, atom_widths, tag_of, shape_of, row_of, row_at};

use numbers::limits::MOST_PARTS;
use numbers::{TermRow, kinds};

// The row at a number, and the unused row past the end.
pub fn row_at(rows: &[u64], row: TermRow) -> u64
    ensures { result ≡ row_at rows.now row.0 }
{
    let i = row.0 as usize;
    if i < rows.len() { rows[i] } else { 0 }
}

pub fn tag(word: u64) -> u8
    ensures { result ≡ tag_of word }
{
    (word >> 60) as u8
}

pub fn number(word: u64) -> u16
    ensures { result ≡ at 2 (split atom_widths word) }
{
    (word % 65536) as u16
}

pub fn part_count(word: u64) -> u64
    ensures { result ≡ at 1 (split term_widths word) }
{
    (word >> 56) % 16
}

pub fn part(word: u64, slot: usize) -> TermRow
    requires { slot < most_parts }
    ensures { result.0 ≡ at (3 + slot) (split term_widths word) }
{
    TermRow(((word >> (36 - 12 * slot as u64)) % 4096) as u16)
}

// How many of its four slots a row uses, the key counted.
pub fn used_slots(word: u64) -> usize
    ensures { (result ≡ length (parts_of (shape_of word))) × (result ≤ most_parts) }
{
    let t = tag(word);
    match t {
        kinds::ENCRYPTION | kinds::SIGNATURE => 2,
        kinds::HASH => 1,
        kinds::TUPLE => MOST_PARTS.min(part_count(word) as usize),
        _ => 0,
    }
}

pub fn atom_word(tag: u8, number: u16) -> u64
    requires { tag < 16 }
    ensures { result ≡ row_of (atom tag number) }
{
    ((tag as u64) << 60) + number as u64
}

pub fn encrypted_word(key: TermRow, body: TermRow) -> u64
    ensures { result ≡ row_of (encrypted key.0 body.0) }
{
    ((kinds::ENCRYPTION as u64) << 60) + ((key.0 as u64) << 36) + ((body.0 as u64) << 24)
}

pub fn signed_word(key: TermRow, body: TermRow) -> u64
    ensures { result ≡ row_of (signed key.0 body.0) }
{
    ((kinds::SIGNATURE as u64) << 60) + ((key.0 as u64) << 36) + ((body.0 as u64) << 24)
}

pub fn hashed_word(body: TermRow) -> u64
    ensures { result ≡ row_of (hashed body.0) }
{
    ((kinds::HASH as u64) << 60) + ((body.0 as u64) << 36)
}

// A part, and zero past the parts.
fn named_part(parts: &[u16], slot: usize) -> u64
    ensures { (result ≡ at slot parts.now) × (result < 65536) }
{
    if slot < parts.len() {
        parts[slot] as u64
    } else {
        0
    }
}

pub fn tuple_word(parts: &[u16]) -> u64
    requires { length parts.now ≤ most_parts }
    ensures { result ≡ row_of (tupled parts.now) }
{
    let first = named_part(parts, 0) << 36;
    let second = named_part(parts, 1) << 24;
    let third = named_part(parts, 2) << 12;
    let fourth = named_part(parts, 3);
    ((kinds::TUPLE as u64) << 60) + ((parts.len() as u64) << 56) + first + second + third + fourth
}
