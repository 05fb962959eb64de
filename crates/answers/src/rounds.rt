// What a round is lent and answers.
ghost use Rattle.std.specs.Prelude.{◌≡◌, ◌≤◌};
ghost use Rattle.answers.specs.RoundNumbers.{rounded_number, rounded_place, rounded_reason};

use super::Ran;

// No message, and no answer, in a record.
pub const NONE_WAITS: u32 = 65535;

#[derive(Clone, Copy)]
pub struct Session {
    pub used: u32,
    pub counter: u32,
    pub round: u32,
    pub message: u32,
    pub answer: u32,
}

// What a run may answer, and three answers of a round's own.
#[derive(Clone, Copy, PartialEq, Eq)]
pub enum Rounded {
    Ran(Ran),
    NoMessage,
    NotTaken,
    RoleEnded,
}

impl Rounded {
    pub fn number(self) -> u32
        ensures { (result ≡ rounded_number self) × (result ≤ 14) }
    {
        match self {
            Rounded::Ran(ran) => ran.number(),
            Rounded::NoMessage => 12,
            Rounded::NotTaken => 13,
            Rounded::RoleEnded => 14,
        }
    }

    pub fn place(self) -> u32
        ensures { result ≡ rounded_place self }
    {
        match self {
            Rounded::Ran(ran) => ran.place(),
            _ => 0,
        }
    }

    // 0 unless stuck.
    pub fn reason(self) -> u32
        ensures { (result ≡ rounded_reason self) × (result ≤ 7) }
    {
        match self {
            Rounded::Ran(ran) => ran.reason(),
            _ => 0,
        }
    }
}
