// A round over a table that is lent as bytes.
ghost use Rattle.std.specs.Prelude.{◌≡◌, ◌*◌, ◌/◌, ◌≤◌, length};
ghost use Rattle.word.specs.Bytes.{elements};
ghost use Rattle.numbers.specs.Limits.{most_term_rows};
ghost use Rattle.calls.specs.Round.{round};
ghost use Rattle.lending.specs.RoundEntry.{round_rows_spelled};

use answers::{Rounded, Session};
use lending::arrays;
use lending::arrays::FEW_ROWS;
use numbers::limits::MOST_TERM_ROWS;
use stores::cells::Cells;

// What a round leaves, with its cells.
#[derive(Drop)]
pub struct RoundLeft {
    pub answer: Rounded,
    pub session: Session,
    pub cells: Cells,
}

// In an array that has room for the table's rows.
fn over_rows<const N: usize>(
    session: Session,
    rounds: u32,
    kinds: &[u8],
    cells: Cells,
    certificates: &[u64],
    terms: &mut [u8],
    words: &[u32],
) -> RoundLeft
    requires { (length terms.old ≡ 8 * (length terms.old / 8)) × (length terms.old / 8 ≤ N) × (N ≤ most_term_rows) }
    ensures { record { answer = result.answer; session = result.session; objects = result.cells.objects; messages = result.cells.messages; terms = terms.new }
        ≡ round_rows_spelled (round (record {
          session = session;
          rounds = rounds;
          kinds = kinds.now;
          objects = cells.objects;
          messages = cells.messages;
          certificates = certificates.now;
          terms = elements 8 terms.old;
        }) words.now) }
{
    let mut new_cells = cells;
    let mut room = arrays::no_rows::<N>();
    let rows = &mut room[..terms.len() / 8];
    let read = lending::rows::unpack(terms, rows);
    let ended = rounds::round_front(
        session,
        rounds,
        kinds,
        &mut new_cells.objects,
        &mut new_cells.messages,
        certificates,
        rows,
        read.front,
        words,
    );
    let session = ended.session;
    lending::rows::pack_new(rows, read.used, session.used as usize, terms);
    RoundLeft {
        answer: ended.answer,
        session,
        cells: new_cells,
    }
}

// A small table is unpacked into a small array, as for a run.
pub fn over_table(
    session: Session,
    rounds: u32,
    kinds: &[u8],
    cells: Cells,
    certificates: &[u64],
    terms: &mut [u8],
    words: &[u32],
) -> RoundLeft
    requires { (length terms.old ≡ 8 * (length terms.old / 8)) × (length terms.old / 8 ≤ most_term_rows) }
    ensures { record { answer = result.answer; session = result.session; objects = result.cells.objects; messages = result.cells.messages; terms = terms.new }
        ≡ round_rows_spelled (round (record {
          session = session;
          rounds = rounds;
          kinds = kinds.now;
          objects = cells.objects;
          messages = cells.messages;
          certificates = certificates.now;
          terms = elements 8 terms.old;
        }) words.now) }
{
    if terms.len() / 8 <= FEW_ROWS {
        over_rows::<FEW_ROWS>(session, rounds, kinds, cells, certificates, terms, words)
    } else {
        over_rows::<MOST_TERM_ROWS>(session, rounds, kinds, cells, certificates, terms, words)
    }
}
