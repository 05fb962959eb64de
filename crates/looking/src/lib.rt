// What run looks at before it steps: 1, 2, 3, 9.
#![tactic(auto)]

ghost use Rattle.std.specs.Prelude.{◌≡◌, ◌&&◌, ◌≤◌, true, eqb, leb};
ghost use Rattle.answers.specs.First.{first};
ghost use Rattle.calls.specs.Run.{refusals};
ghost use Rattle.numbers.specs.Limits.{variables, message_cells, most_certificates, most_term_rows, most_names};
ghost use Rattle.looking.specs.Found.{found_by};

use answers::Ran;
use numbers::limits::{
    MESSAGE_CELLS, MOST_CERTIFICATES, MOST_CODE_WORDS, MOST_NAMES, MOST_TERM_ROWS, VARIABLES,
};

// A refusal before the steps, and the used rows that come back with it.
#[derive(Clone, Copy)]
pub struct Refused {
    pub answer: Ran,
    pub used: u16,
}

// 1. A round has room for other many words than a run.
pub fn lengths_fit(
    kinds: usize,
    objects: usize,
    messages: usize,
    certificates: usize,
    terms: usize,
    counter: u32,
    code: usize,
    most: usize,
) -> bool
    ensures fits { result ≡ (eqb kinds variables && eqb objects variables && eqb messages message_cells && leb certificates most_certificates && leb terms
        most_term_rows && leb counter most_names && leb code most) }
    ensures few_rows { result ≡ true → terms ≤ most_term_rows }
{
    (kinds == VARIABLES)
        & (objects == VARIABLES)
        & (messages == MESSAGE_CELLS)
        & (certificates <= MOST_CERTIFICATES)
        & (terms <= MOST_TERM_ROWS)
        & (counter <= MOST_NAMES)
        & (code <= most)
}

// The number of used rows, where nothing is refused.
pub fn look(
    kinds: &[u8],
    objects: &[u16],
    messages: &[u16],
    certificates: &[u64],
    accumulator: u32,
    rows: &[u64],
    counter: u32,
    words: &[u32],
) -> Result<u16, Refused>
    ensures { result ≡ found_by (first (refusals (record {
      kinds = kinds.now;
      objects = objects.now;
      messages = messages.now;
      certificates = certificates.now;
      accumulator = accumulator;
      terms = rows.now;
      counter = counter;
    })
        words.now)) rows.now }
{
    if !lengths_fit(
        kinds.len(),
        objects.len(),
        messages.len(),
        certificates.len(),
        rows.len(),
        counter,
        words.len(),
        MOST_CODE_WORDS,
    ) {
        return Err(Refused {
            answer: Ran::Limit,
            used: 0,
        });
    }
    let used = match tables::first_bad_row(rows, counter) {
        Ok(count) => count as u16,
        Err(row) => {
            let counted = tables::used_rows(rows) as u16;
            return Err(Refused {
                answer: Ran::BadTerm(row),
                used: counted,
            });
        }
    };
    if !validity::valid(
        rows,
        used,
        kinds,
        objects,
        messages,
        certificates,
        accumulator,
    ) {
        return Err(Refused {
            answer: Ran::BadStore,
            used,
        });
    }
    match operands::first_bad_word(kinds, words) {
        Some(word) => {
            let answer = Ran::BadWord(word);
            Err(Refused { answer, used })
        }
        None => Ok(used),
    }
}
