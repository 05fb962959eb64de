// The term table.
#![tactic(auto)]

mod row;

pub use row::{
    atom_word, encrypted_word, hashed_word, number, part, part_count, row_at, signed_word, tag,
    tuple_word, used_slots,
};
