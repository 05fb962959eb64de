// Valid stores: refusal 3.
#![tactic(auto)]

ghost use Rattle.std.specs.Prelude.{◌≡◌};
ghost use Rattle.word.specs.Lowest.{each};
ghost use Rattle.terms.specs.Row.{tag_of, row_at};
ghost use Rattle.stores.specs.Certificates.{pair_fits};
ghost use Rattle.stores.specs.Valid.{each_variable, object_fits, valid};

use numbers::TermRow;
use numbers::kinds::{AGENT, PUBLIC_KEY};
use stores::cells;

fn tag_at(rows: &[u64], row: TermRow) -> u8
    ensures { result ≡ tag_of (row_at rows.now row.0) }
{
    terms::tag(terms::row_at(rows, row))
}

// A set object cell's row has the variable's kind.
fn object_fits(rows: &[u64], used: u16, kind: u8, cell: u16) -> bool
    ensures { result ≡ object_fits rows.now used kind cell }
{
    let row = cell as u32;
    cells::undeclared_unset(kind, row)
        & cells::cell_fits(used, row)
        & (!cells::is_set(row) | (tag_at(rows, TermRow(cell)) == kind))
}

fn objects_fit(rows: &[u64], used: u16, kinds: &[u8], objects: &[u16]) -> bool
    ensures { result ≡ each_variable (object_fits rows.now used) kinds.now objects.now }
{
    for (&kind, &cell) in kinds.iter().zip(objects) {
        if !object_fits(rows, used, kind, cell) {
            return false;
        }
    }
    true
}

// A pair of an agent row and a public key row, both used.
fn pair_fits(rows: &[u64], used: u16, word: u64) -> bool
    ensures { result ≡ pair_fits rows.now used word }
{
    let agent = certificates::agent(word);
    let key = certificates::key(word);
    (certificates::spare(word) == 0)
        & (agent.0 < used)
        & (tag_at(rows, agent) == AGENT)
        & (key.0 < used)
        & (tag_at(rows, key) == PUBLIC_KEY)
}

fn pairs_fit(rows: &[u64], used: u16, certificates: &[u64]) -> bool
    ensures { result ≡ each (pair_fits rows.now used) certificates.now }
{
    certificates.iter().all(|&word| pair_fits(rows, used, word))
}

// 3, as run sees it.
pub fn valid(
    rows: &[u64],
    used: u16,
    kinds: &[u8],
    objects: &[u16],
    messages: &[u16],
    certificates: &[u64],
    accumulator: u32,
) -> bool
    ensures { result ≡ valid rows.now used kinds.now objects.now messages.now certificates.now accumulator }
{
    cells::kinds_fit(kinds)
        & objects_fit(rows, used, kinds, objects)
        & cells::cells_fit(used, messages)
        & pairs_fit(rows, used, certificates)
        & certificates::agents_once(certificates)
        & cells::cell_fits(used, accumulator)
}
