// A session record that is lent as bytes, and the numbers of a round's answer.
ghost use Rattle.std.specs.Prelude.{◌≡◌, ◌&&◌, true, eqb, length};
ghost use Rattle.word.specs.Bytes.{elements, spelled};
ghost use Rattle.lending.specs.RoundEntry.{record_bytes, session_fields, session_of, rounded_numbers};

use super::RoundAnswer;
use answers::{Rounded, Session};

// Used rows, counter, round, message, answer.
const FIELDS: usize = 5;

pub const RECORD_BYTES: usize = 20;

// A record of its length, and slices that fit.
pub fn lengths_fit(session: usize, slices: bool) -> bool
    ensures fits { result ≡ (eqb session record_bytes && slices) }
    ensures room { result ≡ true → (session ≡ record_bytes) × (slices ≡ true) }
{
    (session == RECORD_BYTES) & slices
}

pub fn unpack(bytes: &[u8]) -> Session
    requires { length bytes.now ≡ record_bytes }
    ensures { result ≡ session_of (elements 4 bytes.now) }
{
    let mut fields = [0u32; FIELDS];
    word::unpack_quads(bytes, &mut fields);
    let [used, counter, round, message, answer] = fields;
    Session {
        used,
        counter,
        round,
        message,
        answer,
    }
}

pub fn pack(session: Session, bytes: &mut [u8])
    requires { length bytes.old ≡ record_bytes }
    ensures { bytes.new ≡ spelled 4 (session_fields session) }
{
    let fields = [
        session.used,
        session.counter,
        session.round,
        session.message,
        session.answer,
    ];
    word::pack_quads(&fields, bytes);
}

pub fn numbers(answer: Rounded) -> RoundAnswer
    ensures { result ≡ rounded_numbers answer }
{
    RoundAnswer {
        number: answer.number(),
        place: answer.place(),
        reason: answer.reason(),
    }
}
