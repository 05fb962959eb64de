// Cells copied into arrays.
ghost use Rattle.std.specs.Prelude.{◌≡◌, length};

pub fn copied<const N: usize>(cells: &[u16]) -> [u16; N]
    requires { length cells.now ≡ N }
    ensures { result ≡ cells.now }
{
    let mut array = [0u16; N];
    array.copy_from_slice(cells);
    array
}
