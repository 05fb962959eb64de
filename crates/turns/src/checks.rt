// What a round looks at before it steps: 1, 2, 3, 9, 14, 13, 12.
ghost use Rattle.std.specs.Prelude.{◌≡◌, ◌&&◌, eqb, leb};
ghost use Rattle.answers.specs.First.{first};
ghost use Rattle.stores.specs.Valid.{cell_fits, valid};
ghost use Rattle.terms.specs.Rules.{used_rows};
ghost use Rattle.numbers.specs.Limits.{most_rounds};
ghost use Rattle.calls.specs.Round.{round_refusals};
ghost use Rattle.turns.specs.Found.{turn_refusals, round_finding};

use crate::words::first_bad_round_word;
use answers::{Ran, Rounded, Session};
use numbers::limits::{MOST_ROUND_WORDS, MOST_ROUNDS};

// 1: what run has too, and of a round's own its least words, the role's rounds, and the table's used rows.
fn round_fits(lengths: bool, code: usize, rounds: u32, used: u32, counted: usize) -> bool
    ensures { result ≡ (lengths && leb 2 code && leb 1 rounds && leb rounds most_rounds && eqb used counted) }
{
    lengths & (2 <= code) & (1 <= rounds) & (rounds <= MOST_ROUNDS) & (used as usize == counted)
}

// 3, of what run has too with the message for its accumulator, and of the answer.
fn record_fits(
    session: Session,
    used: u16,
    kinds: &[u8],
    objects: &[u16],
    messages: &[u16],
    certificates: &[u64],
    terms: &[u64],
) -> bool
    ensures { result ≡ (valid terms.now used kinds.now objects.now messages.now
        certificates.now session.message && cell_fits used session.answer) }
{
    validity::valid(
        terms,
        used,
        kinds,
        objects,
        messages,
        certificates,
        session.message,
    ) & stores::cells::cell_fits(used, session.answer)
}

// 14, 13, 12.
fn turn(session: Session, rounds: u32, used: u16) -> Result<u16, Rounded>
    ensures { result ≡ round_finding (first (turn_refusals session rounds)) used }
{
    if rounds <= session.round {
        return Err(Rounded::RoleEnded);
    }
    if stores::cells::is_set(session.answer) {
        return Err(Rounded::NotTaken);
    }
    if !stores::cells::is_set(session.message) {
        return Err(Rounded::NoMessage);
    }
    Ok(used)
}

// The number of used rows, where nothing is refused.
pub fn look(
    session: Session,
    rounds: u32,
    kinds: &[u8],
    objects: &[u16],
    messages: &[u16],
    certificates: &[u64],
    terms: &[u64],
    code: &[u32],
) -> Result<u16, Rounded>
    ensures { result ≡ round_finding (first (round_refusals (record {
      session = session;
      rounds = rounds;
      kinds = kinds.now;
      objects = objects.now;
      messages = messages.now;
      certificates = certificates.now;
      terms = terms.now;
    })
        code.now)) (used_rows terms.now) }
{
    let counted = tables::used_rows(terms);
    let lengths = looking::lengths_fit(
        kinds.len(),
        objects.len(),
        messages.len(),
        certificates.len(),
        terms.len(),
        session.counter,
        code.len(),
        MOST_ROUND_WORDS,
    );
    if !round_fits(lengths, code.len(), rounds, session.used, counted) {
        return Err(Rounded::Ran(Ran::Limit));
    }
    let used = counted as u16;
    if let Err(row) = tables::first_bad_row(terms, session.counter) {
        return Err(Rounded::Ran(Ran::BadTerm(row)));
    }
    if !record_fits(session, used, kinds, objects, messages, certificates, terms) {
        return Err(Rounded::Ran(Ran::BadStore));
    }
    if let Some(word) = first_bad_round_word(kinds, code) {
        return Err(Rounded::Ran(Ran::BadWord(word)));
    }
    turn(session, rounds, used)
}
