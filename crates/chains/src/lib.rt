// Rows that differ from every row before them. The rows with the same mix of bits stand on one chain, the newest first, and an equal row is met there.
#![tactic(auto)]

ghost use Rattle.std.specs.Prelude.{◌≡◌, ◌≤◌, ◌<◌, length};
ghost use Rattle.numbers.specs.Limits.{most_term_rows};
ghost use Rattle.terms.specs.Rules.{earlier_equal};
ghost use Rattle.chains.specs.Chains.{chain_of, Newest, Linked};
ghost use Rattle.chains.specs.Distinct.{distinct_rows};

use finder::equal_row;
use numbers::limits::MOST_TERM_ROWS;

// In fewer rows equal ones are searched for: to clear the arrays of chains takes longer.
const FEW_ROWS: usize = 32;

// As many chains as there may be rows.
const CHAINS: u64 = MOST_TERM_ROWS as u64;
// What stands where no row is noted.
const NO_ROW: u16 = 65535;
// What the two halves of a row, added, are multiplied by.
const MIX: u64 = 1327217885;

// The chain of a row. All bits are mixed, and a bad mix costs time only.
fn chain_of(word: u64) -> usize
    ensures { result ≡ chain_of word }
{
    let halves = word % 4294967296 + word / 4294967296;
    (halves * MIX / 1048576 % CHAINS) as usize
}

// Of a large array only the length is promised: what stands in it before a row is noted is never believed.
fn no_rows() -> [u16; MOST_TERM_ROWS]
    ensures { most_term_rows ≡ length result }
{
    [NO_ROW; MOST_TERM_ROWS]
}

// Whether an earlier row equals a word, by a walk along its chain from the newest row on; it ends where no older row follows. A chain is links, no list that could be gone through.
fn on_chain(rows: &[u64], older: &[u16], newest: u16, row: usize, word: u64) -> bool
    requires row_in_bounds { (row ≤ length rows.now) × (row ≤ length older.now) }
    requires newest { Newest rows.now (chain_of word) row newest × Linked rows.now older.now row }
    ensures { result ≡ earlier_equal rows.now row word }
{
    let mut before = row;
    let mut at = newest as usize;
    while at < before {
        if rows[at] == word {
            return true;
        }
        before = at;
        at = older[at] as usize;
    }
    false
}

// Each row is looked for on its chain and is then the newest there.
fn distinct_by_chains(rows: &[u64], used: usize) -> usize
    requires { (used ≤ length rows.now) × (length rows.now ≤ most_term_rows) }
    ensures { result ≡ distinct_rows rows.now used }
{
    let mut newest = no_rows();
    let mut older = no_rows();
    for row in 0..used {
        let word = rows[row];
        let chain = chain_of(word);
        let last = newest[chain];
        if on_chain(rows, &older, last, row, word) {
            return row;
        }
        older[row] = last;
        newest[chain] = row as u16;
    }
    used
}

fn earlier_equal(rows: &[u64], row: usize, word: u64) -> bool
    requires { (row ≤ length rows.now) × (length rows.now ≤ most_term_rows) }
    ensures { result ≡ earlier_equal rows.now row word }
{
    equal_row(rows, row, word).is_some()
}

fn distinct_by_search(rows: &[u64], used: usize) -> usize
    requires { (used ≤ length rows.now) × (length rows.now ≤ most_term_rows) }
    ensures { result ≡ distinct_rows rows.now used }
{
    for row in 0..used {
        if earlier_equal(rows, row, rows[row]) {
            return row;
        }
    }
    used
}

// How many of the first rows come before one that equals an earlier row, or else all of them.
pub fn distinct_rows(rows: &[u64], used: usize) -> usize
    requires { (used ≤ length rows.now) × (length rows.now ≤ most_term_rows) }
    ensures { result ≡ distinct_rows rows.now used }
{
    if used < FEW_ROWS {
        distinct_by_search(rows, used)
    } else {
        distinct_by_chains(rows, used)
    }
}
