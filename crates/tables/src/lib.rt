// The rules of a term table: refusal 2.
#![tactic(auto)]

ghost use Rattle.std.specs.Prelude.{◌≡◌, ◌&&◌, [], ◌∷◌, ◌≤◌, ◌<◌, length, drop, eqb};
ghost use Rattle.numbers.specs.Kinds.{shared_key};
ghost use Rattle.numbers.specs.Limits.{most_term_rows};
ghost use Rattle.word.specs.Fields.{split};
ghost use Rattle.word.specs.Lowest.{each, one_of};
ghost use Rattle.terms.specs.Row.{term_widths, tag_of, shape_of, row_at};
ghost use Rattle.terms.specs.Rules.{used_rows, known_tag, is_packed, number_fits, parts_below, key_kind_fits, shape_fits, nonzero_row, checked};

use chains::distinct_rows;
use finder::rows_passed;
use numbers::{TermRow, kinds};
use terms::{
    atom_word, encrypted_word, hashed_word, number, part, row_at, signed_word, tag, tuple_word,
    used_slots,
};

// The used rows are those before the first zero row.
pub fn used_rows(rows: &[u64]) -> usize
    ensures { result ≡ used_rows rows.now }
{
    for row in rows_passed(rows, rows.len(), 0)..rows.len() {
        if rows[row] == 0 {
            return row;
        }
    }
    rows.len()
}

fn known_tag(word: u64) -> bool
    ensures { result ≡ known_tag word }
{
    let t = tag(word);
    kinds::BYTE <= t && t <= kinds::TUPLE
}

// The four slots of parts, used or not.
fn slots(word: u64) -> [u16; 4]
    ensures { result ≡ drop 3 (split term_widths word) }
{
    [
        part(word, 0).0,
        part(word, 1).0,
        part(word, 2).0,
        part(word, 3).0,
    ]
}

// A row is the word of its shape.
fn is_packed(word: u64) -> bool
    ensures { result ≡ is_packed word }
{
    let t = tag(word);
    match t {
        kinds::ENCRYPTION => encrypted_word(part(word, 0), part(word, 1)) == word,
        kinds::SIGNATURE => signed_word(part(word, 0), part(word, 1)) == word,
        kinds::HASH => hashed_word(part(word, 0)) == word,
        kinds::TUPLE => tuple_word(&slots(word)[..used_slots(word)]) == word,
        _ => atom_word(t, number(word)) == word,
    }
}

// A byte is at most 255; nonces and keys are below the name counter; agents are any.
fn number_fits(word: u64, counter: u32) -> bool
    ensures { result ≡ number_fits counter (shape_of word) }
{
    let t = tag(word);
    match t {
        kinds::BYTE => number(word) < 256,
        kinds::AGENT | kinds::ENCRYPTION | kinds::SIGNATURE | kinds::HASH | kinds::TUPLE => true,
        _ => (number(word) as u32) < counter,
    }
}

// Parts have smaller row numbers than their owner.
fn parts_below(word: u64, row: usize) -> bool
    ensures { result ≡ parts_below row (shape_of word) }
{
    for slot in 0..used_slots(word) {
        let other = part(word, slot).0 as usize;
        if row <= other {
            return false;
        }
    }
    true
}

// A key has one kind, or is a shared key.
fn key_is(rows: &[u64], key: TermRow, kind: u8) -> bool
    ensures { result ≡ one_of (kind ∷ shared_key ∷ []) (tag_of (row_at rows.now key.0)) }
{
    let t = tag(row_at(rows, key));
    t == kind || t == kinds::SHARED_KEY
}

// What encrypts is a public or a shared key, what signs a private or a shared one.
fn key_kind_fits(rows: &[u64], word: u64) -> bool
    ensures { result ≡ key_kind_fits rows.now (shape_of word) }
{
    let t = tag(word);
    match t {
        kinds::ENCRYPTION => key_is(rows, part(word, 0), kinds::PUBLIC_KEY),
        kinds::SIGNATURE => key_is(rows, part(word, 0), kinds::PRIVATE_KEY),
        _ => true,
    }
}

fn has_shape(word: u64) -> bool
    ensures { result ≡ (known_tag word && is_packed word) }
{
    known_tag(word) && is_packed(word)
}

// The rules of a row without parts.
fn atom_fits(word: u64, counter: u32) -> bool
    ensures { result ≡ (known_tag word && is_packed word && number_fits counter (shape_of word)) }
{
    has_shape(word) && number_fits(word, counter)
}

// The rules of a row that owns parts.
fn owner_fits(rows: &[u64], row: usize, word: u64) -> bool
    ensures { result ≡ (known_tag word && is_packed word && parts_below row (shape_of word) && key_kind_fits rows.now (shape_of word)) }
{
    has_shape(word) && parts_below(word, row) && key_kind_fits(rows, word)
}

// Every rule looks at the tag; told apart here, a row without parts is not asked for its parts and key.
fn shape_fits(rows: &[u64], counter: u32, row: usize) -> bool
    requires { row < length rows.now }
    ensures { result ≡ shape_fits rows.now counter row (row_at rows.now row) }
{
    let word = rows[row];
    if tag(word) < kinds::ENCRYPTION {
        atom_fits(word, counter)
    } else {
        owner_fits(rows, row, word)
    }
}

// Whether eight rows are zero. All are looked at, so that the processor takes several at a time.
fn eight_zero(block: &[u64]) -> bool
    requires { length block.now ≡ 8 }
    ensures { result ≡ each (λ word. eqb word 0) block.now }
{
    let mut zero = true;
    for &row in block {
        zero = zero & (row == 0);
    }
    zero
}

// How far zero rows reach from a place on. They are passed in blocks of eight, for speed.
fn zeros_passed(rows: &[u64], from: usize) -> usize
    requires { from ≤ length rows.now }
    ensures { (result ≤ length rows.now) × (nonzero_row rows.now from ≡ nonzero_row rows.now result) }
{
    let mut i = from;
    while 8 <= rows.len() - i {
        let end = i + 8;
        if !eight_zero(&rows[i..end]) {
            return i;
        }
        i = end;
    }
    i
}

fn nonzero_row(rows: &[u64], from: usize) -> Option<u32>
    requires { (from ≤ length rows.now) × (length rows.now ≤ most_term_rows) }
    ensures { result ≡ nonzero_row rows.now from }
{
    for row in zeros_passed(rows, from)..rows.len() {
        if rows[row] != 0 {
            return Some(row as u32);
        }
    }
    None
}

// The number of used rows, or the lowest bad row. A used row is bad where its shape breaks a rule or, of two equal rows, where it is the later; any other where it is not zero.
pub fn first_bad_row(rows: &[u64], counter: u32) -> Result<u32, u32>
    requires { length rows.now ≤ most_term_rows }
    ensures { result ≡ checked rows.now counter }
{
    let used = used_rows(rows);
    let distinct = distinct_rows(rows, used);
    for row in 0..distinct {
        if !shape_fits(rows, counter, row) {
            return Err(row as u32);
        }
    }
    if distinct < used {
        return Err(distinct as u32);
    }
    match nonzero_row(rows, used) {
        Some(place) => Err(place),
        None => Ok(used as u32),
    }
}
