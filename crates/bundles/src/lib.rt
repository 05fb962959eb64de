// A bundle's bytes taken apart.
#![tactic(auto)]

ghost use Rattle.std.specs.Prelude.{◌≡◌, ◌++◌, ◌+◌, ◌-◌, ◌*◌, ◌≤◌, length, take, drop, replicate};
ghost use Rattle.word.specs.Bytes.{elements};
ghost use Rattle.stores.specs.Cells.{unset};
ghost use Rattle.bundles.specs.Bundle.{header_of, header_fits, cells_of, kinds_of, clear_of};
ghost use Rattle.bundles.specs.Opening.{bundle_in, held_header, kinds_at, opened};

use numbers::limits::{
    MOST_CERTIFICATES, MOST_NAMES, MOST_PATTERN_ROWS, MOST_TERM_ROWS, VARIABLES,
};
use stores::cells::UNSET;

// How many words the object cells, the named cells and the certificates stand behind the kinds, and the bytes of 64 cells and kinds.
const OBJECTS_BEHIND: usize = 4;

const NAMED_BEHIND: usize = 20;

const CERTIFICATES_BEHIND: usize = 36;

const CELL_BYTES: usize = 128;

const KIND_BYTES: usize = 32;

#[derive(Clone, Copy)]
pub struct Header {
    pub create: bool,
    pub pattern_rows: u16,
    pub certificates: u16,
    pub accumulator: u16,
    pub term_rows: u16,
    pub counter: u32,
}

// The header's fields, the most significant first.
fn header_of(word: u64) -> Header
    ensures { result ≡ held_header (header_of word) }
{
    let create = word / 0x8000_0000_0000_0000 % 0x2 == 1;
    let pattern_rows = (word / 0x100_0000_0000_0000 % 0x80) as u16;
    let certificates = (word / 0x4_0000_0000_0000 % 0x40) as u16;
    let accumulator = (word / 0x4_0000_0000 % 0x1_0000) as u16;
    let term_rows = (word / 0x20_0000 % 0x2000) as u16;
    let counter = (word / 0x10 % 0x2_0000) as u32;
    Header {
        create,
        pattern_rows,
        certificates,
        accumulator,
        term_rows,
        counter,
    }
}

// Spare bits are zero, and counts and the name counter are within their limits.
fn header_fits(word: u64) -> bool
    ensures { result ≡ header_fits (header_of word) }
{
    let header = header_of(word);
    word % 0x10 == 0
        && 1 <= header.pattern_rows
        && header.pattern_rows as usize <= MOST_PATTERN_ROWS
        && header.certificates as usize <= MOST_CERTIFICATES
        && header.term_rows as usize <= MOST_TERM_ROWS
        && header.counter <= MOST_NAMES
}

// The header, the pattern's rows and the terms' come before the kinds.
fn kinds_at(header: Header) -> usize
    ensures { result ≡ kinds_at header }
{
    1 + header.pattern_rows as usize + header.term_rows as usize
}

// A bundle with a wrong size, a set spare bit or a count outside its limit does not open.
pub fn open(bytes: &[u8]) -> Option<Header>
    ensures { result ≡ opened bytes.now }
{
    if bytes.len() < 8 {
        return None;
    }
    let word = word::word_at(bytes, 0);
    if !header_fits(word) {
        return None;
    }
    let header = header_of(word);
    let words = kinds_at(header) + CERTIFICATES_BEHIND + header.certificates as usize;
    if bytes.len() != 8 * words {
        return None;
    }
    Some(header)
}

// So many words from a place on, to the front of a slice.
fn read_words(bytes: &[u8], from: usize, count: usize, rows: &mut [u64])
    requires { (from ≤ 8192) × (8 * (from + count) ≤ length bytes.now) × (count ≤ length rows.old) }
    ensures { rows.new ≡ take count (drop from (elements 8 bytes.now)) ++ drop count rows.old }
{
    let start = 8 * from;
    let end = start + 8 * count;
    word::unpack_words(&bytes[start..end], rows);
}

// The 64 cells of 16 words, to the front of a slice.
fn read_cells(bytes: &[u8], from: usize, cells: &mut [u16])
    requires { (from ≤ 8192) × (8 * (from + 16) ≤ length bytes.now) × (64 ≤ length cells.old) }
    ensures { cells.new ≡ cells_of (take 16 (drop from (elements 8 bytes.now))) ++ drop 64 cells.old }
{
    let start = 8 * from;
    let end = start + CELL_BYTES;
    word::unpack_pairs(&bytes[start..end], cells);
}

// The 64 kinds of 4 words: two in a byte.
fn read_kinds(bytes: &[u8], from: usize, kinds: &mut [u8])
    requires { (from ≤ 8192) × (8 * (from + 4) ≤ length bytes.now) × (64 ≤ length kinds.old) }
    ensures { kinds.new ≡ kinds_of (take 4 (drop from (elements 8 bytes.now))) ++ drop 64 kinds.old }
{
    let start = 8 * from;
    let end = start + KIND_BYTES;
    for (place, &byte) in bytes[start..end].iter().enumerate() {
        kinds[2 * place] = byte / 16;
        kinds[2 * place + 1] = byte % 16;
    }
}

// The parts of a bundle that opened, each to the front of a slice.
pub fn pattern_rows(bytes: &[u8], header: Header, rows: &mut [u64])
    requires { (opened bytes.now ≡ Some header) × (header.pattern_rows ≤ length rows.old) }
    ensures { rows.new ≡ (bundle_in bytes.now).pattern ++ drop header.pattern_rows rows.old }
{
    let count = header.pattern_rows as usize;
    read_words(bytes, 1, count, rows);
}

// Zero rows after the bundle's.
pub fn term_rows(bytes: &[u8], header: Header, rows: &mut [u64])
    requires { (opened bytes.now ≡ Some header) × (header.term_rows ≤ length rows.old) }
    ensures { rows.new ≡ (bundle_in bytes.now).terms ++ replicate (length rows.old - header.term_rows) 0 }
{
    let from = 1 + header.pattern_rows as usize;
    let count = header.term_rows as usize;
    read_words(bytes, from, count, rows);
    rows[count..].fill(0);
}

pub fn kinds(bytes: &[u8], header: Header, kinds: &mut [u8])
    requires { (opened bytes.now ≡ Some header) × (64 ≤ length kinds.old) }
    ensures { kinds.new ≡ (bundle_in bytes.now).kinds ++ drop 64 kinds.old }
{
    let from = kinds_at(header);
    read_kinds(bytes, from, kinds);
}

pub fn object_cells(bytes: &[u8], header: Header, cells: &mut [u16])
    requires { (opened bytes.now ≡ Some header) × (64 ≤ length cells.old) }
    ensures { cells.new ≡ (bundle_in bytes.now).objects ++ drop 64 cells.old }
{
    let from = kinds_at(header) + OBJECTS_BEHIND;
    read_cells(bytes, from, cells);
}

// The named cells, and after them unset ones.
pub fn message_cells(bytes: &[u8], header: Header, cells: &mut [u16])
    requires { (opened bytes.now ≡ Some header) × (64 ≤ length cells.old) }
    ensures { cells.new ≡ (bundle_in bytes.now).named ++ replicate (length cells.old - 64) unset }
{
    let from = kinds_at(header) + NAMED_BEHIND;
    read_cells(bytes, from, cells);
    cells[VARIABLES..].fill(UNSET);
}

pub fn certificates(bytes: &[u8], header: Header, certificates: &mut [u64])
    requires { (opened bytes.now ≡ Some header) × (header.certificates ≤ length certificates.old) }
    ensures { certificates.new ≡ (bundle_in bytes.now).certificates ++ drop header.certificates certificates.old }
{
    let from = kinds_at(header) + CERTIFICATES_BEHIND;
    let count = header.certificates as usize;
    read_words(bytes, from, count, certificates);
}

// No spare bit of a certificate is set.
pub fn certificates_clear(certificates: &[u64]) -> bool
    ensures { result ≡ clear_of certificates.now }
{
    certificates.iter().all(|&word| word % 0x100_0000_0000 == 0)
}
