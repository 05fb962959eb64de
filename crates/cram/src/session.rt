// The entries for C over a session record.
ghost use Rattle.std.specs.Prelude.{◌≡◌};
ghost use Rattle.lending.specs.RoundEntry.{round_entry, take_entry};

use crate::round_tables;
use answers::{NONE_WAITS, Ran, Rounded};
use lending::sessions::RECORD_BYTES;
use lending::{RoundAnswer, TakeAnswer, arrays, runs, sessions};
use numbers::limits::{MOST_CERTIFICATES, MOST_ROUND_WORDS};
use stores::cells::Cells;

// A round's code over a session record, stores and a table of terms.
pub fn cram_round(
    session: &mut [u8],
    rounds: u32,
    kinds: &[u8],
    objects: &mut [u8],
    messages: &mut [u8],
    certificates: &[u8],
    terms: &mut [u8],
    code: &[u8],
) -> RoundAnswer
    ensures { record { answer = result; session = session.new; objects = objects.new; messages = messages.new; terms = terms.new }
        ≡ round_entry (record {
          session = session.old;
          rounds = rounds;
          kinds = kinds.now;
          objects = objects.old;
          messages = messages.old;
          certificates = certificates.now;
          terms = terms.old;
        }) code.now }
{
    let slices = runs::lengths_fit(
        objects.len(),
        messages.len(),
        certificates.len(),
        terms.len(),
        code.len(),
        MOST_ROUND_WORDS,
    );
    if !sessions::lengths_fit(session.len(), slices) {
        return sessions::numbers(Rounded::Ran(Ran::Limit));
    }
    let pairs = arrays::rows::<MOST_CERTIFICATES>(certificates);
    let words = arrays::code_words::<MOST_ROUND_WORDS>(code);
    let cells = Cells {
        objects: arrays::cells(objects),
        messages: arrays::cells(messages),
    };
    let left = round_tables::over_table(
        sessions::unpack(session),
        rounds,
        kinds,
        cells,
        &pairs[..certificates.len() / 8],
        terms,
        &words[..code.len() / 4],
    );
    word::pack_pairs(&left.cells.objects, objects);
    word::pack_pairs(&left.cells.messages, messages);
    sessions::pack(left.session, session);
    sessions::numbers(left.answer)
}

// The answer that waits; 1 is a record of another length.
pub fn cram_take(session: &mut [u8]) -> TakeAnswer
    ensures { record { answer = result; session = session.new } ≡ take_entry session.old }
{
    if session.len() != RECORD_BYTES {
        return TakeAnswer {
            number: 1,
            answer: NONE_WAITS,
        };
    }
    let taken = rounds::take_of(sessions::unpack(session));
    sessions::pack(taken.session, session);
    TakeAnswer {
        number: 0,
        answer: taken.answer,
    }
}
