// The walk of the engine: what it has in hand, and the terms that it finds or makes on its way.
#![tactic(auto)]

ghost use Rattle.std.specs.Prelude.{◌≡◌};
ghost use Rattle.walks.specs.Walks.{asked_at, meeting};

use answers::Reason;
use numbers::TermRow;

pub mod ground;
pub mod keys;
pub mod making;

pub use ground::{Cells, Ground};

// The message in hand, the rows in use and the name counter.
#[derive(Clone, Copy)]
pub struct Walk {
    pub message: TermRow,
    pub used: u16,
    pub counter: u32,
}

// How a walk ends, and at which row of the pattern.
#[derive(Clone, Copy)]
pub enum Ended {
    Stuck(u8, Reason),
    NoRoom(u8),
}

// The walk goes on, or ends at a row of the pattern.
pub type Walked = Result<Walk, Ended>;

impl Walk {
    // The walk with another message in hand.
    pub fn meeting(self, message: TermRow) -> Self
        ensures { result ≡ meeting self message }
    {
        Walk { message, ..self }
    }
}

// What an operation answers: a refusal of it ends the walk at the row.
pub fn asked_at<T>(row: u8, answer: Result<T, Reason>) -> Result<T, Ended>
    ensures { result ≡ asked_at row answer }
{
    answer.map_err(|reason| Ended::Stuck(row, reason))
}
