// Kinds of variables, and cells, which hold rows. A cell past the lent ones is unset.
ghost use Rattle.std.specs.Prelude.{◌≡◌, ◌<◌, length, get_or, set, eqb, if◌then◌else◌};
ghost use Rattle.answers.specs.declared.Reason.TheVariants.{Unset};
ghost use Rattle.stores.specs.Cells.{unset};

use answers::Reason;
use numbers::{Object, Raw, TermRow};
use stores::cells::UNSET;
pub use stores::cells::kind_at;

pub fn cell_at(cells: &[u16], at: usize) -> TermRow
    ensures { result.0 ≡ get_or cells.now at unset }
{
    TermRow(cells.get(at).copied().unwrap_or(UNSET))
}

pub fn object_at(objects: &[u16], v: Object) -> TermRow
    ensures { result.0 ≡ get_or objects.now v.0 unset }
{
    cell_at(objects, v.0 as usize)
}

pub fn message_at(messages: &[u16], r: Raw) -> TermRow
    ensures { result.0 ≡ get_or messages.now r.0 unset }
{
    cell_at(messages, r.0 as usize)
}

// The row in a cell, or that the cell is unset.
pub fn set_row(cell: TermRow) -> Result<TermRow, Reason>
    ensures { result ≡ (if eqb cell.0 unset then Err Unset else Ok cell) }
{
    if cell.0 == UNSET {
        Err(Reason::Unset)
    } else {
        Ok(cell)
    }
}

pub fn set_object(objects: &mut [u16], v: Object, row: TermRow)
    requires { v.0 < length objects.old }
    ensures { objects.new ≡ set objects.old v.0 row.0 }
{
    objects[v.0 as usize] = row.0;
}

pub fn set_message(messages: &mut [u16], r: Raw, row: TermRow)
    requires { r.0 < length messages.old }
    ensures { messages.new ≡ set messages.old r.0 row.0 }
{
    messages[r.0 as usize] = row.0;
}
