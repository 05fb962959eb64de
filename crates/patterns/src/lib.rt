// Patterns: figure 1 as rows.

#![tactic(auto)]

pub mod forms;
pub mod row;

pub use row::{byte, count, key, key_form, raw, slots, tag, variable, y};
