// Run over lent bytes: what fits, and its answer in numbers.
ghost use Rattle.std.specs.Prelude.{◌≡◌, ◌&&◌, ◌*◌, ◌/◌, ◌%◌, ◌≤◌, true, eqb, leb};
ghost use Rattle.numbers.specs.Limits.{variables, message_cells, most_term_rows, most_certificates};
ghost use Rattle.lending.specs.Entries.{ran_numbers};

use super::RunAnswer;
use answers::Ran;
use numbers::limits::{MESSAGE_CELLS, MOST_CERTIFICATES, MOST_TERM_ROWS, VARIABLES};

// Whole elements, and no more than there is room for; a round has room for more words than a run.
pub fn lengths_fit(
    objects: usize,
    messages: usize,
    certificates: usize,
    terms: usize,
    code: usize,
    most: usize,
) -> bool
    ensures fits { result ≡ (eqb objects (2 * variables) && eqb messages (2 * message_cells) && eqb (certificates % 8) 0
        && leb certificates (8 * most_certificates) && eqb (terms % 8) 0 && leb terms (8 * most_term_rows) && eqb (code % 4) 0 && leb (code / 4) most) }
    ensures room { result ≡ true → (objects ≡ 2 * variables) × (messages ≡ 2 * message_cells) × (certificates / 8 ≤ most_certificates)
        × (terms ≡ 8 * (terms / 8)) × (terms / 8 ≤ most_term_rows) × (code / 4 ≤ most) }
{
    (objects == 2 * VARIABLES)
        & (messages == 2 * MESSAGE_CELLS)
        & (certificates % 8 == 0)
        & (certificates <= 8 * MOST_CERTIFICATES)
        & (terms % 8 == 0)
        & (terms <= 8 * MOST_TERM_ROWS)
        & (code % 4 == 0)
        & (code / 4 <= most)
}

pub fn numbers(answer: Ran, used: u32, counter: u32, accumulator: u32) -> RunAnswer
    ensures { result ≡ ran_numbers answer used counter accumulator }
{
    RunAnswer {
        number: answer.number(),
        place: answer.place(),
        reason: answer.reason(),
        used,
        counter,
        accumulator,
    }
}
