// The first and the last word of a round: operations 0 and 1, with every other field zero. They are no instructions.
pub const INPUT: u32 = 0;

pub const OUTPUT: u32 = 0x0800_0000;
