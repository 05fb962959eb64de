// What a pattern must be: the rules of figure 1, refusal 4, and its kinds, refusal 5.
#![tactic(auto)]

mod kinds;
mod rules;

pub use kinds::first_wrong_kind;
pub use rules::first_bad_pattern;
