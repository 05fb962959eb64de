// The machine: registers by value, a method for each instruction, the stores lent. The term rows are no field of the registers: each contract would
// have to say that the same slice is still lent.
#![tactic(auto)]

ghost use Rattle.std.specs.Prelude.{◌≡◌};
ghost use Rattle.machine.specs.declared.Halt.TheVariants.{Stuck};
ghost use Rattle.machine.specs.Machine.{holding, using_rows, naming};

use answers::Reason;
use numbers::TermRow;

pub mod cells;
pub mod making;
pub mod moving;
pub mod opening;
pub mod tuples;

#[derive(Clone, Copy)]
pub struct Registers {
    pub place: u32,
    pub accumulator: TermRow,
    pub used: u16,
    pub counter: u32,
}

// Why an instruction does not go on: a reason of figure 4, or no room for what it makes.
#[derive(Clone, Copy)]
pub enum Halt {
    Stuck(Reason),
    NoRoom,
}

// A step's registers, or why there is none.
pub type Step = Result<Registers, Halt>;

impl From<Reason> for Halt {
    ghost from_gives = { λ reason halt. halt ≡ Stuck reason };

    fn from(reason: Reason) -> Halt {
        Halt::Stuck(reason)
    }
}

impl Registers {
    // The registers with another accumulator.
    pub fn holding(self, row: TermRow) -> Self
        ensures { result ≡ holding self row }
    {
        Registers {
            accumulator: row,
            ..self
        }
    }

    // The registers with another number of used rows.
    pub fn using_rows(self, used: u16) -> Self
        ensures { result ≡ using_rows self used }
    {
        Registers { used, ..self }
    }

    // The registers with another number of used rows and another name counter.
    pub fn naming(self, used: u16, counter: u32) -> Self
        ensures { result ≡ naming self used counter }
    {
        Registers {
            used,
            counter,
            ..self
        }
    }
}
