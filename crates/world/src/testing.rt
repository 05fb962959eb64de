// The conditions on terms.
ghost use Rattle.theory.specs.World.{is, same, verify};
ghost use Rattle.world.specs.Operations.{Tests, TestsOver};

use super::keys::goes_with;
use answers::Reason;
use numbers::TermRow;
use numbers::kinds::SIGNATURE;

pub fn is_kind(rows: &[u64], kind: u8, row: TermRow) -> Result<(), Reason>
    ensures { TestsOver rows.now (is kind row.0) result }
{
    if terms::tag(terms::row_at(rows, row)) != kind {
        return Err(Reason::OtherKind);
    }
    Ok(())
}

// No two rows are equal, so two terms are the same where their rows are.
pub fn same(row: TermRow, other: TermRow) -> Result<(), Reason>
    ensures { Tests (same row.0 other.0) result }
{
    if row != other {
        return Err(Reason::Differs);
    }
    Ok(())
}

// A signature is verified only for its own body.
pub fn verify(rows: &[u64], key: TermRow, body: TermRow, signature: TermRow) -> Result<(), Reason>
    ensures { TestsOver rows.now (verify key.0 body.0 signature.0) result }
{
    let word = terms::row_at(rows, signature);
    if terms::tag(word) != SIGNATURE {
        return Err(Reason::NotVerified);
    }
    if !goes_with(rows, terms::part(word, 0), key) {
        return Err(Reason::NotVerified);
    }
    if terms::part(word, 1) != body {
        return Err(Reason::NotVerified);
    }
    Ok(())
}
