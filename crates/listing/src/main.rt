// Reads one bundle from standard input and prints its listing.
#![tactic(auto)]

use lines::list;
use std::io;
use streams::{large_buffer, read_full};

mod lines;

// Input that fills the buffer is longer than any bundle, and is refused for its size.
fn main(rt: HostRuntime) -> io::Result<()> {
    let mut input = large_buffer();
    let count = read_full(&mut rt.stdin(), &mut input)?;
    let mut printed = large_buffer();
    let end = list(&input[..count], &mut printed);
    rt.write_all(&printed[..end])
}
