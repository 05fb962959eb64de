// What each step of a walk is lent: what it reads, and the cells that it sets.
use layout::Rows;
use numbers::limits::VARIABLES;

// What a walk reads and never changes: the pattern's rows, the kinds and the certificates.
#[derive(Clone, Copy)]
pub struct Ground<'a> {
    pub rows: &'a Rows,
    pub kinds: &'a [u8],
    pub certificates: &'a [u64],
}

// The cells that a walk sets.
#[derive(Clone, Copy)]
pub struct Cells {
    pub objects: [u16; VARIABLES],
    pub named: [u16; VARIABLES],
}
