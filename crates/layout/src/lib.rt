// A pattern's rows and the kinds, as the walks over a pattern read them.
#![tactic(auto)]

ghost use Rattle.std.specs.Prelude.{◌≡◌, ◌++◌, ◌≤◌, ◌<◌, length, drop, replicate};
ghost use Rattle.numbers.specs.Kinds.{kind_in};
ghost use Rattle.numbers.specs.Limits.{variables, most_pattern_rows};
ghost use Rattle.theory.specs.World.{creatable};

use numbers::limits::{MOST_PATTERN_ROWS, VARIABLES};
use numbers::{Object, kinds as kind};

// The pattern's rows, and zero rows behind them.
pub type Rows = [u64; MOST_PATTERN_ROWS];

// The kinds of the object variables.
pub type Kinds = [u8; VARIABLES];

// Zero rows, of which the pattern's take the front.
pub fn no_rows() -> Rows
    ensures { result ≡ replicate most_pattern_rows 0 }
{
    [0u64; MOST_PATTERN_ROWS]
}

// The pattern's rows in front, where they are walked: returned, they would stand on the stack twice.
pub fn lay_rows(pattern: &[u64], rows: &mut Rows)
    requires { length pattern.now ≤ most_pattern_rows }
    ensures { rows.new ≡ pattern.now ++ drop (length pattern.now) rows.old }
{
    rows[..pattern.len()].copy_from_slice(pattern);
}

// The kinds as an array: each step of the walk then hands on one word for them.
pub fn all_kinds(kinds: &[u8]) -> Kinds
    requires { length kinds.now ≡ variables }
    ensures { result ≡ kinds.now }
{
    let mut all = [0u8; VARIABLES];
    all.copy_from_slice(kinds);
    all
}

// Whether a kind is one that CREATE makes a new object of.
pub fn creatable_kind(own: u8) -> bool
    ensures { result ≡ creatable own }
{
    (own == kind::NONCE) | (own == kind::PRIVATE_KEY) | (own == kind::SHARED_KEY)
}

// Whether a variable's kind is.
pub fn creatable(kinds: &Kinds, v: Object) -> bool
    requires { v.0 < variables }
    ensures { result ≡ creatable (kind_in kinds.now v.0) }
{
    creatable_kind(kinds[v.0 as usize])
}
