// Standard input and output of the programs: buffers of a fixed length.
#![tactic(auto)]

ghost use Rattle.std.specs.Prelude.{◌≡◌, ◌<◌, length, take, IfOk};
ghost use Rattle.std.specs.Io.{ReadsAtMost};
ghost use Rattle.std.specs.Io.KnownBytes.{Consumes, IsAtEnd};

use std::io;
use std::io::Read;

// 65,536 zeros.
pub fn large_buffer() -> [u8; 65536]
    ensures { 65536 ≡ length result }
{
    [0; 65536]
}

// Reads until the buffer is full or the input ends, and returns how many bytes it put at its start: what a read gives says where the next one goes.
pub fn read_full<R: Read>(input: &mut R, buf: &mut [u8]) -> io::Result<usize>
    ensures bound { ReadsAtMost result buf.new }
    ensures bytes { IfOk result (λ n. Consumes (R.remaining input.old) (R.remaining input.new) (take n buf.new)) }
    ensures ends { IfOk result (λ n. n < length buf.new → IsAtEnd (R.remaining input.new)) }
{
    let mut done = 0;
    while done < buf.len() {
        let n = input.read(&mut buf[done..])?;
        if n == 0 {
            return Ok(done);
        }
        done += n;
    }
    Ok(done)
}

#[cfg(test)]
mod tests {
    use super::*;
    use std::test::Fail;

    // Gives a byte a read, and fails where none is left.
    #[derive(Drop)]
    struct Drip {
        left: u8,
    }

    impl Read for Drip {
        fn read(&mut self, buf: &mut [u8]) -> io::Result<usize> {
            if buf.len() == 0 {
                return Ok(0);
            }
            if self.left == 0 {
                return Err(io::Error::from(io::ErrorKind::Other));
            }
            buf[0] = self.left;
            self.left -= 1;
            Ok(1)
        }
    }

    #[test]
    fn fills_by_short_reads(rt: HostRuntime) -> Result<(), Fail> {
        let mut buf = [0u8; 3];
        assert_eq!(rt; read_full(&mut Drip { left: 5 }, &mut buf)?, 3);
        assert_eq!(rt; buf, [5, 4, 3]);
        Ok(())
    }

    #[test]
    fn fails_where_a_read_does(rt: HostRuntime) {
        let mut buf = [0u8; 3];
        assert!(rt; read_full(&mut Drip { left: 2 }, &mut buf).is_err());
    }

    #[test]
    fn stops_at_the_end(rt: HostRuntime) -> Result<(), Fail> {
        let mut input: &[u8] = b"ab";
        let mut buf = [0u8; 3];
        assert_eq!(rt; read_full(&mut input, &mut buf)?, 2);
        assert_eq!(rt; buf, [97, 98, 0]);
        Ok(())
    }
}
