// A round of a role on a session record.
#![tactic(auto)]

ghost use Rattle.std.specs.Prelude.{◌≡◌};
ghost use Rattle.calls.specs.Round.{round, taken_of};
ghost use Rattle.looking.specs.Front.{Front};

use answers::{NONE_WAITS, Rounded, Session};

mod steps;

// A round's answer, and the session after it.
#[derive(Clone, Copy)]
pub struct RoundEnded {
    pub session: Session,
    pub answer: Rounded,
}

// The answer that was waiting, and the session without it.
#[derive(Clone, Copy)]
pub struct Taken {
    pub session: Session,
    pub answer: u32,
}

pub fn take_of(session: Session) -> Taken
    ensures { record { session = result.session; answer = result.answer } ≡ taken_of session }
{
    Taken {
        session: Session {
            answer: NONE_WAITS,
            ..session
        },
        answer: session.answer,
    }
}

// The rows behind the front are zero, so that they are not looked at.
pub fn round_front(
    session: Session,
    rounds: u32,
    kinds: &[u8],
    objects: &mut [u16],
    messages: &mut [u16],
    certificates: &[u64],
    terms: &mut [u64],
    front: usize,
    code: &[u32],
) -> RoundEnded
    requires { Front terms.old front }
    ensures { record { answer = result.answer; session = result.session; objects = objects.new; messages = messages.new; terms = terms.new }
        ≡ round (record {
          session = session;
          rounds = rounds;
          kinds = kinds.now;
          objects = objects.old;
          messages = messages.old;
          certificates = certificates.now;
          terms = terms.old;
        }) code.now }
{
    let found = turns::look(
        session,
        rounds,
        kinds,
        objects,
        messages,
        certificates,
        &terms[..front],
        code,
    );
    match found {
        Err(answer) => RoundEnded { session, answer },
        Ok(used) => steps::play(
            session,
            rounds,
            used,
            kinds,
            objects,
            messages,
            certificates,
            terms,
            code,
        ),
    }
}

pub fn round_of(
    session: Session,
    rounds: u32,
    kinds: &[u8],
    objects: &mut [u16],
    messages: &mut [u16],
    certificates: &[u64],
    terms: &mut [u64],
    code: &[u32],
) -> RoundEnded
    ensures { record { answer = result.answer; session = result.session; objects = objects.new; messages = messages.new; terms = terms.new }
        ≡ round (record {
          session = session;
          rounds = rounds;
          kinds = kinds.now;
          objects = objects.old;
          messages = messages.old;
          certificates = certificates.now;
          terms = terms.old;
        }) code.now }
{
    let rows = terms.len();
    round_front(
        session,
        rounds,
        kinds,
        objects,
        messages,
        certificates,
        terms,
        rows,
        code,
    )
}

// The same in place.
pub fn take(session: &mut Session) -> u32
    ensures { record { session = session.new; answer = result } ≡ taken_of session.old }
{
    let taken = take_of(*session);
    *session = taken.session;
    taken.answer
}

pub fn round(
    session: &mut Session,
    rounds: u32,
    kinds: &[u8],
    objects: &mut [u16],
    messages: &mut [u16],
    certificates: &[u64],
    terms: &mut [u64],
    code: &[u32],
) -> Rounded
    ensures { record { answer = result; session = session.new; objects = objects.new; messages = messages.new; terms = terms.new }
        ≡ round (record {
          session = session.old;
          rounds = rounds;
          kinds = kinds.now;
          objects = objects.old;
          messages = messages.old;
          certificates = certificates.now;
          terms = terms.old;
        }) code.now }
{
    let ended = round_of(
        *session,
        rounds,
        kinds,
        objects,
        messages,
        certificates,
        terms,
        code,
    );
    *session = ended.session;
    ended.answer
}
