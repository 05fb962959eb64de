// From a bundle's bytes to the lines of its listing.
ghost use Rattle.text.specs.Written.{Wrote};
ghost use Rattle.printing.specs.Listing.{listing};

use outcomes::rooms::{code_room, message_room, object_room, row_room};

// The listing of any bytes.
pub fn list(bytes: &[u8], out: &mut [u8]) -> usize
    ensures { Wrote (listing bytes.now) out.old 0 out.new result }
{
    let mut code = code_room();
    let mut objects = object_room();
    let mut messages = message_room();
    let mut rows = row_room();
    let given = outcomes::given(bytes, &mut code, &mut objects, &mut messages, &mut rows);
    match given {
        Ok((words, ended)) => {
            let count = words as usize;
            printing::ran(
                out,
                &code[..count],
                ended.answer,
                &objects,
                &messages,
                ended.used as u32,
                ended.counter,
                ended.accumulator,
            )
        }
        Err(refusal) => printing::refused(out, refusal.number, refusal.place),
    }
}
