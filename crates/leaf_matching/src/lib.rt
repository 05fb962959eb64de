// Figure 2 where a pattern has no parts: the message in hand against a variable, or against a term that is made.
#![tactic(auto)]

pub mod forms;
pub mod keys;
pub mod stages;
