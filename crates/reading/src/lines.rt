// From a bundle and code lines to the lines that are read back, or to why they are refused.
ghost use Rattle.std.specs.Prelude.{◌≡◌, ◌≤◌, length};
ghost use Rattle.text.specs.Written.{Wrote};
ghost use Rattle.bundles.specs.Bundle.{read_bundle};
ghost use Rattle.reading.specs.Rereading.{most_input, whole_input, code_again, reread_by, reread};

use code_reading::{ReadBack, read_code};
use outcomes::rooms::code_room;

// One byte less than fills the buffer of the program.
const MOST_INPUT: usize = 65535;

// Nothing is cut, and the bundle is there to its end.
fn is_whole(input: &[u8]) -> bool
    ensures { result ≡ whole_input input.now }
{
    8 <= input.len()
        && input.len() <= MOST_INPUT
        && word::word_at(input, 0) <= (input.len() - 8) as u64
}

fn lines_again(text: &[u8], kinds: &[u8], out: &mut [u8]) -> usize
    requires { length text.now ≤ most_input }
    ensures { Wrote (code_again text.now kinds.now) out.old 0 out.new result }
{
    let mut code = code_room();
    let answer = read_code(text, kinds, &mut code);
    match answer {
        ReadBack::Done(words) => {
            let count = words as usize;
            printing::code_lines(out, &code[..count])
        }
        _ => {
            let number = answer.number();
            let place = answer.place() as u32;
            printing::refused(out, number, place)
        }
    }
}

// The kinds are the bundle's.
fn bundle_again(bundle: &[u8], text: &[u8], out: &mut [u8]) -> usize
    requires { length text.now ≤ most_input }
    ensures { Wrote (reread_by (read_bundle bundle.now) text.now) out.old 0 out.new result }
{
    match bundles::open(bundle) {
        Some(header) => {
            let kinds = outcomes::parts::kinds(bundle, header);
            lines_again(text, &kinds, out)
        }
        None => printing::refused(out, 1, 0),
    }
}

// What is printed for any input.
pub fn reread(input: &[u8], out: &mut [u8]) -> usize
    ensures { Wrote (reread input.now) out.old 0 out.new result }
{
    if !is_whole(input) {
        return printing::refused(out, 1, 0);
    }
    let end = 8 + word::word_at(input, 0) as usize;
    bundle_again(&input[8..end], &input[end..], out)
}
