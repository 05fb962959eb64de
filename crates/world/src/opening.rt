// What is taken out of other terms, or looked up.
ghost use Rattle.theory.specs.World.{decrypt};
ghost use Rattle.world.specs.Operations.{OpensOver, CertifiedBy, PartsOver};

use super::keys::goes_with;
use answers::Reason;
use numbers::TermRow;
use numbers::kinds::{ENCRYPTION, TUPLE};

// The public key of an agent's certificate.
pub fn key_of(certificates: &[u64], agent: TermRow) -> Result<TermRow, Reason>
    ensures { CertifiedBy certificates.now agent.0 result }
{
    certificates::certified(certificates, agent).ok_or(Reason::NoCertificate)
}

// The body of an encryption that the key opens.
pub fn decrypt(rows: &[u64], key: TermRow, sealed: TermRow) -> Result<TermRow, Reason>
    ensures { OpensOver rows.now (decrypt key.0 sealed.0) result }
{
    let word = terms::row_at(rows, sealed);
    if terms::tag(word) != ENCRYPTION {
        return Err(Reason::NotOpened);
    }
    if !goes_with(rows, key, terms::part(word, 0)) {
        return Err(Reason::NotOpened);
    }
    Ok(terms::part(word, 1))
}

// The parts of a tuple of exactly n.
pub fn parts(rows: &[u64], row: TermRow, n: u8) -> Result<u64, Reason>
    ensures { PartsOver rows.now row.0 n result }
{
    let word = terms::row_at(rows, row);
    if terms::tag(word) != TUPLE {
        return Err(Reason::PartCount);
    }
    if terms::used_slots(word) != n as usize {
        return Err(Reason::PartCount);
    }
    Ok(word)
}
