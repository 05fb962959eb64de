// Certificates: agent row 12, public key row 12, zero 40.
#![tactic(auto)]

ghost use Rattle.std.specs.Prelude.{◌≡◌, not, eqb};
ghost use Rattle.word.specs.Lowest.{each};
ghost use Rattle.stores.specs.Certificates.{agent_of, key_of, spare_of, certified, agents_once};
ghost use Rattle.certificates.specs.Answer.{certificate_of};

use numbers::TermRow;

pub fn agent(word: u64) -> TermRow
    ensures { result.0 ≡ agent_of word }
{
    TermRow(((word >> 52) % 4096) as u16)
}

pub fn key(word: u64) -> TermRow
    ensures { result.0 ≡ key_of word }
{
    TermRow(((word >> 40) % 4096) as u16)
}

pub fn spare(word: u64) -> u64
    ensures { result ≡ spare_of word }
{
    word % 1099511627776
}

// The public key row of an agent row.
pub fn certified(certificates: &[u64], agent: TermRow) -> Option<TermRow>
    ensures { result ≡ certificate_of (certified certificates.now agent.0) }
{
    for &word in certificates {
        if self::agent(word) == agent {
            return Some(key(word));
        }
    }
    None
}

// An agent stands nowhere among certificates.
fn stands_nowhere(certificates: &[u64], agent: TermRow) -> bool
    ensures { result ≡ each (λ other. not (eqb (agent_of other) agent.0)) certificates.now }
{
    certificates.iter().all(|&word| self::agent(word) != agent)
}

// No agent twice: none stands among the later ones.
pub fn agents_once(certificates: &[u64]) -> bool
    ensures { result ≡ agents_once certificates.now }
{
    for (i, &word) in certificates.iter().enumerate() {
        if !stands_nowhere(&certificates[i + 1..], agent(word)) {
            return false;
        }
    }
    true
}
