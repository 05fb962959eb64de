// What compile looks at before it emits: 1, 3, 4, 5.
ghost use Rattle.std.specs.Prelude.{◌≡◌, zero, length};
ghost use Rattle.numbers.specs.Limits.{variables};
ghost use Rattle.answers.specs.First.{first};
ghost use Rattle.knowing.specs.Known.{known};
ghost use Rattle.knowing.specs.Findings.{finding_of};
ghost use Rattle.calls.specs.Half.{undeclared_unknown, declared_known, known_fit, known_refusals};

use answers::Compiled;
use knowing::is_known;
use numbers::limits::{MOST_PATTERN_ROWS, VARIABLES};

// 1.
fn lengths_fit(pattern: usize, kinds: usize) -> bool
    ensures { result ≡ known_fit pattern kinds }
{
    (1 <= pattern) & (pattern <= MOST_PATTERN_ROWS) & (kinds == VARIABLES)
}

// No object variable that is undeclared is set.
fn all_declared(kinds: &[u8], objects: u64) -> bool
    requires { length kinds.now ≡ variables }
    ensures { result ≡ undeclared_unknown zero kinds.now (known objects) }
{
    let mut declared = true;
    for (v, &kind) in kinds.iter().enumerate() {
        declared = declared & ((kind != 0) | !is_known(objects, v as u8));
    }
    declared
}

// 3.
fn declares(kinds: &[u8], objects: u64) -> bool
    requires { length kinds.now ≡ variables }
    ensures { result ≡ declared_known kinds.now (known objects) }
{
    stores::cells::kinds_fit(kinds) & all_declared(kinds, objects)
}

pub fn look(create: bool, pattern: &[u64], kinds: &[u8], objects: u64) -> Result<(), Compiled>
    ensures { result ≡ finding_of (first (known_refusals create pattern.now kinds.now (known objects))) }
{
    if !lengths_fit(pattern.len(), kinds.len()) {
        return Err(Compiled::Limit);
    }
    if !declares(kinds, objects) {
        return Err(Compiled::BadStore);
    }
    if let Some(row) = grammar::first_bad_pattern(pattern) {
        return Err(Compiled::BadPattern(row));
    }
    if let Some(row) = grammar::first_wrong_kind(create, kinds, pattern) {
        return Err(Compiled::WrongKind(row));
    }
    Ok(())
}
