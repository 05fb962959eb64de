// The finder: a new term takes the row that equals it, or else the first unused row.
#![tactic(auto)]

ghost use Rattle.std.specs.Prelude.{◌≡◌, ◌≤◌, length};
ghost use Rattle.std.specs.Prelude.{None};
ghost use Rattle.numbers.specs.Limits.{most_term_rows};
ghost use Rattle.word.specs.Lowest.{one_of};
ghost use Rattle.terms.specs.Finder.{equal_row, located, locate};

use numbers::TermRow;

// Whether one of eight rows equals a word. All are compared, so that the processor takes several at a time.
fn one_of_eight(block: &[u64], word: u64) -> bool
    requires { length block.now ≡ 8 }
    ensures { result ≡ one_of block.now word }
{
    let mut found = false;
    for &row in block {
        found = found | (row == word);
    }
    found
}

// So many of the first rows do not equal a word. They are passed in blocks of eight, for speed.
pub fn rows_passed(rows: &[u64], used: usize, word: u64) -> usize
    requires { used ≤ length rows.now }
    ensures { (result ≤ used) × (equal_row rows.now result word ≡ None) }
{
    let mut i: usize = 0;
    while 8 <= used - i {
        let end = i + 8;
        if one_of_eight(&rows[i..end], word) {
            return i;
        }
        i = end;
    }
    i
}

// As many first rows are left to search; those behind them do not equal a word. They are passed in blocks of eight from the newest down, for speed.
fn rows_left(rows: &[u64], used: usize, word: u64) -> usize
    requires { used ≤ length rows.now }
    ensures { (result ≤ used) × (equal_row rows.now used word ≡ equal_row rows.now result word) }
{
    let mut left = used;
    while 8 <= left {
        let start = left - 8;
        if one_of_eight(&rows[start..left], word) {
            return left;
        }
        left = start;
    }
    left
}

// The row that equals a term, among the first so many: what was made last is found first.
pub fn equal_row(rows: &[u64], used: usize, word: u64) -> Option<u32>
    requires { (used ≤ length rows.now) × (length rows.now ≤ most_term_rows) }
    ensures { result ≡ equal_row rows.now used word }
{
    for row in (0..rows_left(rows, used, word)).rev() {
        if rows[row] == word {
            return Some(row as u32);
        }
    }
    None
}

// The row of a term and the number of used rows then, or none where there is no room.
pub fn find(rows: &mut [u64], used: u16, word: u64) -> Option<(TermRow, u16)>
    requires { (used ≤ length rows.old) × (length rows.old ≤ most_term_rows) }
    ensures { located result rows.new ≡ locate rows.old used word }
{
    let unused = used as usize;
    let after = unused + 1;
    let place = equal_row(rows, unused, word);
    match place {
        Some(row) => Some((TermRow(row as u16), used)),
        None => {
            if unused < rows.len() {
                rows[unused] = word;
                Some((TermRow(used), after as u16))
            } else {
                None
            }
        }
    }
}
