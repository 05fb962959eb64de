// What the engine answers, which goes straight from the pattern.
ghost use Rattle.std.specs.Prelude.{◌≡◌, ◌≤◌};
ghost use Rattle.answers.specs.DirectNumbers.{direct_number, direct_place, direct_reason};

use super::Reason;

// Compile's and run's answers, but that no code can be too short or bad. Places are rows: of the term table with 2, else of the pattern.
#[derive(Clone, Copy, PartialEq, Eq)]
pub enum Direct {
    Done,
    Limit,
    BadTerm(u32),
    BadStore,
    BadPattern(u32),
    WrongKind(u32),
    WrittenWhileSet(u32),
    ReadWhileUnset(u32),
    Stuck(u32, Reason),
    NoRoom(u32),
}

impl Direct {
    pub fn number(self) -> u32
        ensures { (result ≡ direct_number self) × (result ≤ 11) }
    {
        match self {
            Direct::Done => 0,
            Direct::Limit => 1,
            Direct::BadTerm(_) => 2,
            Direct::BadStore => 3,
            Direct::BadPattern(_) => 4,
            Direct::WrongKind(_) => 5,
            Direct::WrittenWhileSet(_) => 6,
            Direct::ReadWhileUnset(_) => 7,
            Direct::Stuck(_, _) => 10,
            Direct::NoRoom(_) => 11,
        }
    }

    pub fn place(self) -> u32
        ensures { result ≡ direct_place self }
    {
        match self {
            Direct::Done | Direct::Limit | Direct::BadStore => 0,
            Direct::BadTerm(row)
            | Direct::BadPattern(row)
            | Direct::WrongKind(row)
            | Direct::WrittenWhileSet(row)
            | Direct::ReadWhileUnset(row)
            | Direct::Stuck(row, _)
            | Direct::NoRoom(row) => row,
        }
    }

    // 0 unless stuck.
    pub fn reason(self) -> u32
        ensures { (result ≡ direct_reason self) × (result ≤ 7) }
    {
        match self {
            Direct::Stuck(_, reason) => reason.number(),
            _ => 0,
        }
    }
}
