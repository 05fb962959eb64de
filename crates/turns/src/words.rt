// The words of a round: INPUT, what run steps through, OUTPUT.
ghost use Rattle.std.specs.Prelude.{◌≡◌, ◌<◌, ◌≤◌, length};
ghost use Rattle.numbers.specs.Kinds.{kind_in};
ghost use Rattle.calls.specs.Frame.{good_round_word, bad_round_word};

use code::frame::{INPUT, OUTPUT};

fn good_round_word(kinds: &[u8], words: usize, place: usize, word: u32) -> bool
    requires { place < words }
    ensures { result ≡ good_round_word (kind_in kinds.now) words place word }
{
    if place == 0 {
        return word == INPUT;
    }
    if place + 1 == words {
        return word == OUTPUT;
    }
    operands::good_word(kinds, word)
}

// Refusal 9.
pub fn first_bad_round_word(kinds: &[u8], code: &[u32]) -> Option<u32>
    requires { length code.now ≤ 65536 }
    ensures { result ≡ bad_round_word (kind_in kinds.now) code.now }
{
    let count = code.len();
    for (place, &word) in code.iter().enumerate() {
        if !good_round_word(kinds, count, place, word) {
            return Some(place as u32);
        }
    }
    None
}
