// Keys that go together.
ghost use Rattle.std.specs.Prelude.{◌≡◌};
ghost use Rattle.world.specs.Operations.{keys_pair};

use numbers::TermRow;
use numbers::kinds::{PRIVATE_KEY, PUBLIC_KEY, SHARED_KEY};

// A private key goes with the public key of its number, a shared key with itself.
pub fn goes_with(rows: &[u64], key: TermRow, other: TermRow) -> bool
    ensures { result ≡ keys_pair rows.now key.0 other.0 }
{
    let word = terms::row_at(rows, key);
    let opposed = terms::row_at(rows, other);
    let tag = terms::tag(word);
    match tag {
        PRIVATE_KEY => terms::tag(opposed) == PUBLIC_KEY
            && terms::number(word) == terms::number(opposed),
        SHARED_KEY => terms::tag(opposed) == SHARED_KEY
            && terms::number(word) == terms::number(opposed),
        _ => false,
    }
}
