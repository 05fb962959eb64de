// What a terminal holds: kinds, cells, accumulator; the definitions of certificates and of valid stores.
#![tactic(auto)]

pub mod cells;

pub use cells::declares;
