// What a creation takes from a variable, a key or an operation on terms, and what becomes a variable's value.
#![tactic(auto)]

pub mod keys;
pub mod values;
