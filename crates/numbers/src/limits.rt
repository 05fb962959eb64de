// The limits of document 01.

// Kinds, object cells and named message cells.
pub const VARIABLES: usize = 64;
// Message cells, named and scratch.
pub const MESSAGE_CELLS: usize = 256;

pub const MOST_PATTERN_ROWS: usize = 96;

pub const MOST_CODE_WORDS: usize = 768;

pub const MOST_TERM_ROWS: usize = 4096;

pub const MOST_CERTIFICATES: usize = 32;
// The parts of a tuple.
pub const MOST_PARTS: usize = 4;
// Names are counted from 0; the counter may stand at this number, where no name is left.
pub const MOST_NAMES: u32 = 65536;
// The rounds of a role, and the words of a round: INPUT, two halves and OUTPUT.
pub const MOST_ROUNDS: u32 = 16;

pub const MOST_ROUND_WORDS: usize = 1538;
