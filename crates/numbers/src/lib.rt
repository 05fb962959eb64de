// Numbers of three sorts that are never taken for each other.
#![tactic(auto)]

pub mod kinds;
pub mod limits;

// An object variable.
#[derive(Clone, Copy, PartialEq, Eq)]
pub struct Object(pub u8);

// A raw variable, which is a message cell: 0..63 named, 64..255 scratch.
#[derive(Clone, Copy, PartialEq, Eq)]
pub struct Raw(pub u8);

// A row of the term table.
#[derive(Clone, Copy, PartialEq, Eq)]
pub struct TermRow(pub u16);
