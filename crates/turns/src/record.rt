// What a round's steps leave: the answer, and the record of a round that is done.
ghost use Rattle.std.specs.Prelude.{◌≡◌, ◌<◌, ◌≤◌};
ghost use Rattle.answers.specs.Numbers.{ran_place};
ghost use Rattle.numbers.specs.Limits.{most_rounds, most_round_words};
ghost use Rattle.turns.specs.Played.{in_round, session_after};

use answers::{NONE_WAITS, Ran, Session};
use machine::Registers;

// The steps' answer, with INPUT and OUTPUT counted.
pub fn in_round(answer: Ran) -> Ran
    requires { ran_place answer ≤ most_round_words }
    ensures { result ≡ in_round answer }
{
    match answer {
        Ran::Done(words) => Ran::Done(words + 2),
        Ran::Limit | Ran::BadTerm(_) | Ran::BadStore | Ran::BadWord(_) => answer,
        Ran::Stuck(place, reason) => Ran::Stuck(place + 1, reason),
        Ran::NoRoom(place) => Ran::NoRoom(place + 1),
    }
}

// The message is taken, the accumulator is the answer, and the next round waits for its own message.
pub fn session_after(session: Session, registers: Registers) -> Session
    requires { session.round < most_rounds }
    ensures { result ≡ session_after session registers }
{
    Session {
        used: registers.used as u32,
        counter: registers.counter,
        round: session.round + 1,
        message: NONE_WAITS,
        answer: registers.accumulator.0 as u32,
    }
}
