// The kinds of object variables, which are also the tags of term rows.
// They stay numbers: C lends kinds as bytes and tags are 4-bit fields, whose other values are refused one by one, and document 01 speaks of their numbers.
pub const BYTE: u8 = 1;

pub const NONCE: u8 = 2;

pub const AGENT: u8 = 3;

pub const PUBLIC_KEY: u8 = 4;

pub const PRIVATE_KEY: u8 = 5;

pub const SHARED_KEY: u8 = 6;

pub const ENCRYPTION: u8 = 7;

pub const SIGNATURE: u8 = 8;

pub const HASH: u8 = 9;

pub const TUPLE: u8 = 10;
