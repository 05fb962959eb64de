// Elements of lent bytes, in arrays that have room for as many as there may be.
ghost use Rattle.std.specs.Prelude.{◌≡◌, ◌*◌, ◌/◌, ◌≤◌, length, take};
ghost use Rattle.word.specs.Bytes.{elements};
ghost use Rattle.looking.specs.Front.{ZeroFrom};

// Rows of a small table.
pub const FEW_ROWS: usize = 256;

// Cells, as many as the array has.
pub fn cells<const N: usize>(bytes: &[u8]) -> [u16; N]
    requires { length bytes.now ≡ 2 * N }
    ensures { result ≡ elements 2 bytes.now }
{
    let mut unpacked = [0u16; N];
    word::unpack_pairs(bytes, &mut unpacked);
    unpacked
}

// Certificates and pattern rows stand in the front of the array, and so do code words.
pub fn rows<const N: usize>(bytes: &[u8]) -> [u64; N]
    requires { length bytes.now / 8 ≤ N }
    ensures { take (length bytes.now / 8) result ≡ elements 8 bytes.now }
{
    let mut unpacked = [0u64; N];
    word::unpack_words(bytes, &mut unpacked);
    unpacked
}

pub fn code_words<const N: usize>(bytes: &[u8]) -> [u32; N]
    requires { length bytes.now / 4 ≤ N }
    ensures { take (length bytes.now / 4) result ≡ elements 4 bytes.now }
{
    let mut unpacked = no_words();
    word::unpack_quads(bytes, &mut unpacked);
    unpacked
}

// Of a large array only the length is promised: a goal would spell every zero.
fn no_words<const N: usize>() -> [u32; N]
    ensures { N ≡ length result }
{
    [0u32; N]
}

// Rows of a table, all zero.
pub fn no_rows<const N: usize>() -> [u64; N]
    ensures { (N ≡ length result) × ZeroFrom 0 result }
{
    [0u64; N]
}
