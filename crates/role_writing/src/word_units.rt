// What words may be lent as: numbers, or the bytes of C.
#![tactic(auto)]

ghost use Rattle.std.specs.Prelude.{◌≡◌, ℕ, ◌+◌, ◌*◌, ◌/◌, ◌<◌, ◌≤◌, List, length};
ghost use Rattle.std.proofs.Common.{arith};
ghost use Rattle.std.proofs.lemmas.List.Edits.{sets};
ghost use Rattle.word.specs.Bytes.{spelled};
ghost use Rattle.role_writing.specs.Units.{Packs, itself_packs, bytes_pack};

// An element of a slice that stands for words.
pub trait WordUnit<W> {
    // how many elements a word takes, and the elements of words
    ghost size: { ℕ };

    ghost packed: { List W → List Self };

    // Words from a place on.
    fn put(units: &mut [Self], place: usize, words: &[W])
        requires { place + length words.now ≤ length units.old / size }
        ensures { units.new ≡ sets units.old (size * place) (packed words.now) };

    ghost packs: { Packs size packed };
}

impl<W: Copy> WordUnit<W> for W {
    ghost size = { 1 };

    ghost packed = { λ words. words };

    ghost packs = { itself_packs };

    fn put(units: &mut [W], place: usize, words: &[W]) {
        units[place..place + words.len()].copy_from_slice(words);
    }
}

impl WordUnit<u32> for u8 {
    ghost size = { 4 };

    ghost packed = { spelled 4 };

    ghost packs = { bytes_pack 4 (omega arith) };

    fn put(units: &mut [u8], place: usize, words: &[u32]) {
        word::pack_quads(words, &mut units[4 * place..4 * (place + words.len())]);
    }
}

impl WordUnit<u16> for u8 {
    ghost size = { 2 };

    ghost packed = { spelled 2 };

    ghost packs = { bytes_pack 2 (omega arith) };

    fn put(units: &mut [u8], place: usize, words: &[u16]) {
        word::pack_pairs(words, &mut units[2 * place..2 * (place + words.len())]);
    }
}
