// The operations on terms: what term is made, opened or verified, or the reason why not.
#![tactic(auto)]

mod keys;
mod making;
mod opening;
mod testing;

pub use making::{byte, create, encrypt, hash, opposite, sign, tuple};
pub use opening::{decrypt, key_of, parts};
pub use testing::{is_kind, same, verify};
