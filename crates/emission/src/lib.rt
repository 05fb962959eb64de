// One instruction after another, and the parts of a tuple.
#![tactic(auto)]

pub mod instructions;

ghost use Rattle.std.specs.Prelude.{◌≡◌, ◌<◌};
ghost use Rattle.numbers.specs.Limits.{scratch_cells};
ghost use Rattle.theory.specs.Machine.{scratch};
ghost use Rattle.emission.specs.Parts.{parts_from};

use numbers::Raw;
use numbers::limits::{MOST_PARTS, VARIABLES};

// The message cell of a scratch number.
pub fn scratch(number: u8) -> Raw
    requires { number < scratch_cells }
    ensures { result ≡ scratch number }
{
    Raw(VARIABLES as u8 + number)
}

// A part of a tuple: its row, and the scratch number that holds it.
#[derive(Clone, Copy)]
pub struct Part {
    pub child: u8,
    pub scratch: u8,
}

pub fn parts_of(children: [u8; MOST_PARTS], first: u8) -> [Part; MOST_PARTS]
    requires { first < scratch_cells }
    ensures { result ≡ parts_from children first }
{
    [
        Part {
            child: children[0],
            scratch: first,
        },
        Part {
            child: children[1],
            scratch: first + 1,
        },
        Part {
            child: children[2],
            scratch: first + 2,
        },
        Part {
            child: children[3],
            scratch: first + 3,
        },
    ]
}
