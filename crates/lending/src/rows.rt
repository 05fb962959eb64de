// A table that is lent as bytes: its used rows alone are unpacked, and its new rows alone are packed back.
ghost use Rattle.std.specs.Prelude.{◌≡◌, ◌++◌, ◌*◌, ◌≤◌, eqb, length, drop};
ghost use Rattle.numbers.specs.Limits.{most_term_rows};
ghost use Rattle.word.specs.Bytes.{words, elements, spelled};
ghost use Rattle.word.specs.Lowest.{each};
ghost use Rattle.terms.specs.Rules.{used_rows};
ghost use Rattle.looking.specs.Front.{ZeroFrom, Front, SameBut};

// The used rows of a table, and the front of it that is to be looked at.
#[derive(Clone, Copy)]
pub struct RowsRead {
    pub used: usize,
    pub front: usize,
}

// All are looked at: a loop that does not stop early is done several bytes at a time.
fn all_zero(bytes: &[u8]) -> bool
    ensures { result ≡ each (λ byte. eqb byte 0) bytes.now }
{
    let mut zero = true;
    for byte in bytes {
        zero &= *byte == 0;
    }
    zero
}

// The rows before the first zero row, to the front of a slice.
fn unpack_used(bytes: &[u8], rows: &mut [u64]) -> usize
    requires { length bytes.now ≡ 8 * length rows.old }
    ensures { (result ≡ used_rows (elements 8 bytes.now)) × (rows.new ≡ words 8 result bytes.now ++ drop result rows.old) }
{
    for (place, row) in rows.iter_mut().enumerate() {
        let word = word::word_at(bytes, 8 * place);
        if word == 0 {
            return place;
        }
        *row = word;
    }
    rows.len()
}

// All rows, into rows that are zero. The front ends at the first zero row, but where a row behind that is not zero.
pub fn unpack(bytes: &[u8], rows: &mut [u64]) -> RowsRead
    requires { (length bytes.now ≡ 8 * length rows.old) × (length rows.old ≤ most_term_rows) × ZeroFrom 0 rows.old }
    ensures { (rows.new ≡ elements 8 bytes.now) × (result.used ≡ used_rows (elements 8 bytes.now)) × Front (elements 8 bytes.now) result.front }
{
    let used = unpack_used(bytes, rows);
    if all_zero(&bytes[8 * used..]) {
        return RowsRead { used, front: used };
    }
    word::unpack_words(bytes, rows);
    RowsRead {
        used,
        front: rows.len(),
    }
}

// The rows from one place up to another, where the bytes hold all the others.
pub fn pack_new(rows: &[u64], from: usize, to: usize, bytes: &mut [u8])
    requires { (length bytes.old ≡ 8 * length rows.now) × (from ≤ length rows.now) × SameBut (elements 8 bytes.old) rows.now from to }
    ensures { bytes.new ≡ spelled 8 rows.now }
{
    let end = to.min(rows.len());
    for place in from..end {
        word::put_word(bytes, 8 * place, rows[place]);
    }
}
