// Cells as a number: which of them are set.
ghost use Rattle.std.specs.Prelude.{◌≡◌, cond, ◌+◌, ◌*◌, ◌^◌, ◌<◌, length, get_or};
ghost use Rattle.numbers.specs.Limits.{variables};
ghost use Rattle.stores.specs.Cells.{is_set, unset};
ghost use Rattle.knowing.specs.Known.{known};

// The set of the cells so far with one more cell behind them.
fn with_cell(mask: u64, row: u16) -> u64
    requires { mask < 2 ^ 63 }
    ensures { result ≡ 2 * mask + cond (is_set row) 1 0 }
{
    if stores::cells::is_set(row as u32) {
        2 * mask + 1
    } else {
        2 * mask
    }
}

// Which cells are set, cell 0 at the most significant bit.
pub fn set_cells(cells: &[u16]) -> u64
    requires { length cells.now ≡ variables }
    ensures { known result ≡ (λ v. is_set (get_or cells.now v unset)) }
{
    let mut mask: u64 = 0;
    for &cell in cells {
        mask = with_cell(mask, cell);
    }
    mask
}
