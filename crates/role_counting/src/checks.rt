// The call's own 1.
ghost use Rattle.std.specs.Prelude.{◌≡◌, ◌&&◌, ◌/◌, ◌%◌, ◌≤◌, eqb, leb, length};
ghost use Rattle.numbers.specs.Limits.{variables, most_rounds};
ghost use Rattle.calls.specs.Role.{sum};

use numbers::limits::{MOST_ROUNDS, VARIABLES};

// The rows that the counts speak of.
fn sum(counts: &[u8]) -> usize
    requires { length counts.now ≤ 65536 }
    ensures { result ≡ sum counts.now }
{
    counts.iter().map(|count| *count as usize).sum()
}

fn lengths_fit(counts: usize, kinds: usize, objects: usize, named: usize, ends: usize) -> bool
    ensures { result ≡ (eqb (counts % 2) 0 && leb 1 (counts / 2) && leb (counts / 2) most_rounds && eqb kinds variables && eqb objects variables && eqb named variables && eqb ends (counts / 2)) }
{
    let rounds = counts / 2;
    (counts % 2 == 0)
        & (1 <= rounds)
        & (rounds <= MOST_ROUNDS as usize)
        & (kinds == VARIABLES)
        & (objects == VARIABLES)
        & (named == VARIABLES)
        & (ends == rounds)
}

pub fn role_fits(
    rows: usize,
    counts: &[u8],
    kinds: usize,
    objects: usize,
    named: usize,
    ends: usize,
) -> bool
    ensures { result ≡ (eqb (length counts.now % 2) 0 && leb 1 (length counts.now / 2) && leb (length counts.now / 2) most_rounds
        && eqb kinds variables && eqb objects variables && eqb named variables && eqb ends (length counts.now / 2) && eqb (sum counts.now) rows) }
{
    if !lengths_fit(counts.len(), kinds, objects, named, ends) {
        return false;
    }
    sum(counts) == rows
}
