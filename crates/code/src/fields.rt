// Where a word's fields stand: the value of one in each field.
pub const OPERATION: u32 = 0x0800_0000;

pub const A: u32 = 0x0008_0000;

pub const B: u32 = 0x0000_0800;

pub const N: u32 = 0x0000_0100;
// How many values A and B take, and n.
pub const OPERANDS: u32 = 256;

pub const COUNTS: u32 = 8;
