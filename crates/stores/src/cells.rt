// Kinds and cells.
ghost use Rattle.std.specs.Prelude.{◌≡◌};
ghost use Rattle.numbers.specs.Kinds.{kind_in};
ghost use Rattle.word.specs.Lowest.{each};
ghost use Rattle.stores.specs.Cells.{is_set};
ghost use Rattle.stores.specs.Valid.{kinds_fit, each_variable, undeclared_unset, cell_fits, declared};

use numbers::Object;
use numbers::kinds::TUPLE;
use numbers::limits::{MESSAGE_CELLS, VARIABLES};

// What stands in a cell that holds no row.
pub const UNSET: u16 = 65535;

// The kind of a variable; one past the list is undeclared.
pub fn kind_at(kinds: &[u8], v: Object) -> u8
    ensures { result ≡ kind_in kinds.now v.0 }
{
    kinds.get(v.0 as usize).copied().unwrap_or(0)
}

// The cells of a terminal: of the objects, and of messages.
#[derive(Clone, Copy)]
pub struct Cells {
    pub objects: [u16; VARIABLES],
    pub messages: [u16; MESSAGE_CELLS],
}

pub fn is_set(cell: u32) -> bool
    ensures { result ≡ is_set cell }
{
    cell != UNSET as u32
}

// A cell is unset or a used row.
pub fn cell_fits(used: u16, cell: u32) -> bool
    ensures { result ≡ cell_fits used cell }
{
    !is_set(cell) | (cell < used as u32)
}

// All are looked at: a loop that does not stop early is done several cells at a time. So too below.
pub fn cells_fit(used: u16, cells: &[u16]) -> bool
    ensures { result ≡ each (cell_fits used) cells.now }
{
    let mut fit = true;
    for &cell in cells {
        fit = fit & cell_fits(used, cell as u32);
    }
    fit
}

// A kind is at most that of a tuple.
pub fn kinds_fit(kinds: &[u8]) -> bool
    ensures { result ≡ kinds_fit kinds.now }
{
    let mut fit = true;
    for &kind in kinds {
        fit = fit & (kind <= TUPLE);
    }
    fit
}

// The cell of an undeclared variable is unset.
pub fn undeclared_unset(kind: u8, cell: u32) -> bool
    ensures { result ≡ undeclared_unset kind cell }
{
    (kind != 0) | !is_set(cell)
}

fn all_declared(kinds: &[u8], objects: &[u16]) -> bool
    ensures { result ≡ each_variable undeclared_unset kinds.now objects.now }
{
    let mut declared = true;
    for (&kind, &cell) in kinds.iter().zip(objects) {
        declared = declared & undeclared_unset(kind, cell as u32);
    }
    declared
}

// 3, as compile sees it.
pub fn declares(kinds: &[u8], objects: &[u16]) -> bool
    ensures { result ≡ declared kinds.now objects.now }
{
    kinds_fit(kinds) & all_declared(kinds, objects)
}
