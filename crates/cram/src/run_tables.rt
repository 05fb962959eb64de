// Run over a table that is lent as bytes.
ghost use Rattle.std.specs.Prelude.{◌≡◌, ◌*◌, ◌/◌, ◌≤◌, length};
ghost use Rattle.word.specs.Bytes.{elements};
ghost use Rattle.numbers.specs.Limits.{most_term_rows};
ghost use Rattle.calls.specs.Run.{run};
ghost use Rattle.looking.specs.Found.{used_with};
ghost use Rattle.lending.specs.Entries.{rows_spelled};

use lending::arrays;
use lending::arrays::FEW_ROWS;
use numbers::limits::MOST_TERM_ROWS;
use running::Outcome;
use stores::cells::Cells;

// In an array that has room for the table's rows.
fn over_rows<const N: usize>(
    kinds: &[u8],
    cells: Cells,
    certificates: &[u64],
    accumulator: u32,
    terms: &mut [u8],
    counter: u32,
    words: &[u32],
) -> Outcome
    requires { (length terms.old ≡ 8 * (length terms.old / 8)) × (length terms.old / 8 ≤ N) × (N ≤ most_term_rows) }
    ensures { let o = run (record {
      kinds = kinds.now;
      objects = cells.objects;
      messages = cells.messages;
      certificates = certificates.now;
      accumulator = accumulator;
      terms = elements 8 terms.old;
      counter = counter;
    }) words.now in
        (record { answer = result.answer; objects = result.cells.objects; messages = result.cells.messages; accumulator = result.accumulator; terms = terms.new; counter = result.counter } ≡ rows_spelled o)
        × (result.used ≡ used_with o.answer o.terms) }
{
    let mut room = arrays::no_rows::<N>();
    let rows = &mut room[..terms.len() / 8];
    let read = lending::rows::unpack(terms, rows);
    let left = running::run_cells(
        kinds,
        cells,
        certificates,
        accumulator,
        rows,
        read.front,
        counter,
        words,
    );
    lending::rows::pack_new(rows, read.used, left.used as usize, terms);
    left
}

// A small table is run in a small array: to clear a large one takes longer than most runs.
pub fn over_table(
    kinds: &[u8],
    cells: Cells,
    certificates: &[u64],
    accumulator: u32,
    terms: &mut [u8],
    counter: u32,
    words: &[u32],
) -> Outcome
    requires { (length terms.old ≡ 8 * (length terms.old / 8)) × (length terms.old / 8 ≤ most_term_rows) }
    ensures { let o = run (record {
      kinds = kinds.now;
      objects = cells.objects;
      messages = cells.messages;
      certificates = certificates.now;
      accumulator = accumulator;
      terms = elements 8 terms.old;
      counter = counter;
    }) words.now in
        (record { answer = result.answer; objects = result.cells.objects; messages = result.cells.messages; accumulator = result.accumulator; terms = terms.new; counter = result.counter } ≡ rows_spelled o)
        × (result.used ≡ used_with o.answer o.terms) }
{
    if terms.len() / 8 <= FEW_ROWS {
        over_rows::<FEW_ROWS>(
            kinds,
            cells,
            certificates,
            accumulator,
            terms,
            counter,
            words,
        )
    } else {
        over_rows::<MOST_TERM_ROWS>(
            kinds,
            cells,
            certificates,
            accumulator,
            terms,
            counter,
            words,
        )
    }
}
