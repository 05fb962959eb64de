// A turn of a role: what a round looks at before it steps, and what its steps leave in the record.
#![tactic(auto)]

pub use checks::look;
pub use record::{in_round, session_after};

mod checks;
mod record;
mod words;
