// What is printed.
use crate::written::UNSET;
use std::io;

// Each cell that is set, as in a listing.
pub fn cells(rt: &impl Print, name: &str, cells: &[u16]) -> io::Result<()> {
    for (number, &row) in cells.iter().enumerate() {
        if row != UNSET {
            println!(rt; "{name} {number} {row}")?;
        }
    }
    Ok(())
}

// Each row of the table, in hexadecimal digits.
pub fn rows(rt: &impl Print, rows: &[u64]) -> io::Result<()> {
    for &word in rows {
        println!(rt; "{word:016x}")?;
    }
    Ok(())
}
