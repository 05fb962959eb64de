// Lines of decimal numbers, read from any bytes.
ghost use Rattle.std.specs.Prelude.{◌≡◌, ◌+◌, ◌^◌, ◌≤◌, drop};
ghost use Rattle.word.specs.All.{All};
ghost use Rattle.text.specs.Readers.{read_number, read_line};
ghost use Rattle.text.specs.ReadAnswers.{numbers_of, ReadsNumber, ReadsLine};

// The numbers of a line.
#[derive(Clone, Copy)]
pub struct Numbers(pub u64, pub u64, pub u64, pub u64, pub u64);

// What a digit is worth.
fn worth(byte: u8) -> u64
    requires { (48 ≤ byte) × (byte ≤ 57) }
    ensures { (result + 48 ≡ byte) × (result ≤ 9) }
{
    (byte - b'0') as u64
}

// A number and the place behind the byte that ends it. A number is left as soon as it is too large, so that none wraps, however long it is.
pub fn read_number(text: &[u8], at: usize, most: u64, end: u8) -> Option<(u64, usize)>
    requires { most ≤ 10 ^ 18 }
    ensures { ReadsNumber text.now (read_number most end (drop at text.now)) result }
{
    let &first = text.get(at)?;
    if !first.is_ascii_digit() {
        return None;
    }
    let mut value = worth(first);
    // The place is a part of what is answered.
    for place in at + 1..text.len() {
        let byte = text[place];
        if most < value {
            return None;
        }
        if byte == end {
            return Some((value, place + 1));
        }
        if !byte.is_ascii_digit() {
            return None;
        }
        if value == 0 {
            return None;
        }
        value = value * 10 + worth(byte);
    }
    None
}

// A line of five numbers and the place behind it. Each number is at most so large; one space between, a line feed behind the last.
pub fn read_line(text: &[u8], at: usize, most: Numbers) -> Option<(Numbers, usize)>
    requires { All (λ number. number ≤ 10 ^ 18) (numbers_of most) }
    ensures { ReadsLine text.now (read_line (numbers_of most) (drop at text.now)) result }
{
    let (first, second_at) = read_number(text, at, most.0, b' ')?;
    let (second, third_at) = read_number(text, second_at, most.1, b' ')?;
    let (third, fourth_at) = read_number(text, third_at, most.2, b' ')?;
    let (fourth, fifth_at) = read_number(text, fourth_at, most.3, b' ')?;
    let (fifth, next) = read_number(text, fifth_at, most.4, b'\n')?;
    Some((Numbers(first, second, third, fourth, fifth), next))
}
