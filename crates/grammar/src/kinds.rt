// Kinds in a pattern: refusal 5.
ghost use Rattle.std.specs.Prelude.{◌≡◌, ◌≤◌, length};
ghost use Rattle.numbers.specs.Kinds.{kind_in};
ghost use Rattle.numbers.specs.Limits.{most_pattern_rows};
ghost use Rattle.patterns.specs.Row.{pattern_fields};
ghost use Rattle.patterns.specs.Tree.{key_by};
ghost use Rattle.patterns.specs.Kinds.{private_side, public_side, encryption_key, wrong_kind};
ghost use Rattle.patterns.specs.RowKinds.{row_kinds};

use numbers::kinds as kind;
use patterns::{forms, row};
use stores::cells::kind_at;

// What opens or signs is private or shared.
fn private_side(kinds: &[u8], word: u64) -> bool
    ensures { result ≡ private_side (kind_in kinds.now) (key_by (pattern_fields word)) }
{
    let key = kind_at(kinds, row::key(word));
    let form = row::key_form(word);
    match form {
        forms::OPPOSITE_KEY => false,
        forms::CERTIFIED_KEY => false,
        _ => (key == kind::PRIVATE_KEY) | (key == kind::SHARED_KEY),
    }
}

// What seals or verifies is public or shared.
fn public_side(kinds: &[u8], word: u64) -> bool
    ensures { result ≡ public_side (kind_in kinds.now) (key_by (pattern_fields word)) }
{
    let key = kind_at(kinds, row::key(word));
    let other = kind_at(kinds, row::y(word));
    let form = row::key_form(word);
    match form {
        forms::OPPOSITE_KEY => (key == kind::PUBLIC_KEY) & (other == kind::PRIVATE_KEY),
        forms::CERTIFIED_KEY => (key == kind::PUBLIC_KEY) & (other == kind::AGENT),
        _ => (key == kind::PUBLIC_KEY) | (key == kind::SHARED_KEY),
    }
}

// The key of a created E or, the other way round, of a created S.
fn key_fits(create: bool, kinds: &[u8], word: u64) -> bool
    ensures { result ≡ encryption_key create (kind_in kinds.now) (key_by (pattern_fields word)) }
{
    if create {
        public_side(kinds, word)
    } else {
        private_side(kinds, word)
    }
}

fn row_kinds(create: bool, kinds: &[u8], word: u64) -> bool
    ensures { result ≡ row_kinds create (kind_in kinds.now) (pattern_fields word) }
{
    let own = kind_at(kinds, row::variable(word));
    let other = kind_at(kinds, row::y(word));
    let bare = (kind::BYTE <= own) & (own <= kind::HASH);
    let form = row::tag(word);
    match form {
        forms::OBJECT_VARIABLE => bare,
        forms::RAW_VARIABLE => true,
        forms::CONSTANT => own == kind::BYTE,
        forms::OPPOSITE => (own == kind::PUBLIC_KEY) & (other == kind::PRIVATE_KEY),
        forms::KEY_OF => (own == kind::PUBLIC_KEY) & (other == kind::AGENT),
        forms::ENCRYPTION => (own == kind::ENCRYPTION) & key_fits(create, kinds, word),
        forms::SIGNATURE => (own == kind::SIGNATURE) & key_fits(!create, kinds, word),
        forms::HASH => own == kind::HASH,
        forms::TUPLE => own == kind::TUPLE,
        forms::LET => true,
        _ => bare,
    }
}

// 5: the lowest row with a wrong kind.
pub fn first_wrong_kind(create: bool, kinds: &[u8], rows: &[u64]) -> Option<u32>
    requires { length rows.now ≤ most_pattern_rows }
    ensures { result ≡ wrong_kind create (kind_in kinds.now) rows.now }
{
    for (place, &word) in rows.iter().enumerate() {
        if !row_kinds(create, kinds, word) {
            return Some(place as u32);
        }
    }
    None
}
