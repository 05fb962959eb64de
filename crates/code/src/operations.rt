// The numbers of the operations, in the order of figure 4. 0 and 1 are no instructions: `frame` has them.
// They stay numbers: an operation is a field of a word that C lends, whose other values are refused one by one, and document 01 speaks of their numbers.
pub const LOAD: u32 = 2;

pub const STORE: u32 = 3;

pub const STORE_CONST: u32 = 4;

pub const DECODE: u32 = 5;

pub const ENCODE: u32 = 6;

pub const CREATE: u32 = 7;

pub const ANALYZE_TUPLE: u32 = 8;

pub const CREATE_TUPLE: u32 = 9;

pub const OPPOSITE: u32 = 10;

pub const KEY_OF: u32 = 11;

pub const MATCH: u32 = 12;

pub const ENCRYPT: u32 = 13;

pub const DECRYPT: u32 = 14;

pub const SIGN: u32 = 15;

pub const VERIFY: u32 = 16;

pub const HASH: u32 = 17;
