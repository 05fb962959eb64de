// What a call answers, one enum for each kind of call, and the numbers that it comes back as.
// Done is one answer among the others, no Ok: document 01 numbers it 0, and the promises speak of each answer's number and place. These and the
// reason are columns of one table, so that none of them is the conversion of an answer.
#![tactic(auto)]

mod direct;
mod rounds;

ghost use Rattle.std.specs.Prelude.{◌≡◌, ◌≤◌};
ghost use Rattle.answers.specs.Numbers.{reason_number, compiled_number, compiled_place, ran_number, ran_place, ran_reason};

pub use direct::Direct;
pub use rounds::{NONE_WAITS, Rounded, Session};

#[derive(Clone, Copy, PartialEq, Eq)]
pub enum Reason {
    Unset,
    OtherKind,
    Differs,
    PartCount,
    NoCertificate,
    NotOpened,
    NotVerified,
}

#[derive(Clone, Copy, PartialEq, Eq)]
pub enum Compiled {
    Done(u32),
    Limit,
    BadStore,
    BadPattern(u32),
    WrongKind(u32),
    WrittenWhileSet(u32),
    ReadWhileUnset(u32),
    CodeTooShort(u32),
}

#[derive(Clone, Copy, PartialEq, Eq)]
pub enum Ran {
    Done(u32),
    Limit,
    BadTerm(u32),
    BadStore,
    BadWord(u32),
    Stuck(u32, Reason),
    NoRoom(u32),
}

impl Reason {
    pub fn number(self) -> u32
        ensures { (result ≡ reason_number self) × (result ≤ 7) }
    {
        match self {
            Reason::Unset => 1,
            Reason::OtherKind => 2,
            Reason::Differs => 3,
            Reason::PartCount => 4,
            Reason::NoCertificate => 5,
            Reason::NotOpened => 6,
            Reason::NotVerified => 7,
        }
    }
}

impl Compiled {
    pub fn number(self) -> u32
        ensures { (result ≡ compiled_number self) × (result ≤ 8) }
    {
        match self {
            Compiled::Done(_) => 0,
            Compiled::Limit => 1,
            Compiled::BadStore => 3,
            Compiled::BadPattern(_) => 4,
            Compiled::WrongKind(_) => 5,
            Compiled::WrittenWhileSet(_) => 6,
            Compiled::ReadWhileUnset(_) => 7,
            Compiled::CodeTooShort(_) => 8,
        }
    }

    pub fn place(self) -> u32
        ensures { result ≡ compiled_place self }
    {
        match self {
            Compiled::Limit | Compiled::BadStore => 0,
            Compiled::Done(words) | Compiled::CodeTooShort(words) => words,
            Compiled::BadPattern(row)
            | Compiled::WrongKind(row)
            | Compiled::WrittenWhileSet(row)
            | Compiled::ReadWhileUnset(row) => row,
        }
    }
}

impl Ran {
    pub fn number(self) -> u32
        ensures { (result ≡ ran_number self) × (result ≤ 11) }
    {
        match self {
            Ran::Done(_) => 0,
            Ran::Limit => 1,
            Ran::BadTerm(_) => 2,
            Ran::BadStore => 3,
            Ran::BadWord(_) => 9,
            Ran::Stuck(_, _) => 10,
            Ran::NoRoom(_) => 11,
        }
    }

    pub fn place(self) -> u32
        ensures { result ≡ ran_place self }
    {
        match self {
            Ran::Limit | Ran::BadStore => 0,
            Ran::Done(words) => words,
            Ran::BadTerm(row) => row,
            Ran::BadWord(word) | Ran::Stuck(word, _) | Ran::NoRoom(word) => word,
        }
    }

    // 0 unless stuck.
    pub fn reason(self) -> u32
        ensures { (result ≡ ran_reason self) × (result ≤ 7) }
    {
        match self {
            Ran::Stuck(_, reason) => reason.number(),
            _ => 0,
        }
    }
}
