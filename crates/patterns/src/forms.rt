// The forms of figure 1, which are the tags of pattern rows.
// They stay numbers: a tag is a 4-bit field of a word that C lends, whose other values are refused one by one, and document 01 speaks of their numbers.
pub const OBJECT_VARIABLE: u8 = 0;

pub const RAW_VARIABLE: u8 = 1;

pub const CONSTANT: u8 = 2;

pub const OPPOSITE: u8 = 3;

pub const KEY_OF: u8 = 4;

pub const ENCRYPTION: u8 = 5;

pub const SIGNATURE: u8 = 6;

pub const HASH: u8 = 7;

pub const TUPLE: u8 = 8;

pub const LET: u8 = 9;

// The forms of a key, which are F: x, k : op(K) and k : keyOf(a).
pub const PLAIN_KEY: u8 = 0;

pub const OPPOSITE_KEY: u8 = 1;

pub const CERTIFIED_KEY: u8 = 2;
