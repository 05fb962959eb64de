// Reads a bundle and code lines from standard input, and prints the lines that are read back.
#![tactic(auto)]

use lines::reread;
use std::io;
use streams::{large_buffer, read_full};

mod lines;

// Input that fills the buffer may be cut, and is refused.
fn main(rt: HostRuntime) -> io::Result<()> {
    let mut input = large_buffer();
    let count = read_full(&mut rt.stdin(), &mut input)?;
    let mut printed = large_buffer();
    let end = reread(&input[..count], &mut printed);
    rt.write_all(&printed[..end])
}
