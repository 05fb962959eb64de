// What a role's rows may be lent as: numbers, or the bytes of C.
#![tactic(auto)]

ghost use Rattle.std.specs.Prelude.{◌≡◌, ℕ, ◌-◌, ◌≤◌, List, length, take, drop};
ghost use Rattle.std.proofs.Math.Nat.{le_refl};
ghost use Rattle.word.specs.Bytes.{elements};
ghost use Rattle.numbers.specs.Limits.{most_pattern_rows};
ghost use Rattle.knowing.specs.Known.{known};
ghost use Rattle.compiler.specs.Buffer.{outcome_of};
ghost use Rattle.compiler.specs.CompileKnown.{compile_known};
ghost use Rattle.role_counting.specs.RowUnits.{fewer_rows};

use crate::SetCells;
use compiler::KnownAnswer;
use knowing::Code;
use numbers::limits::MOST_PATTERN_ROWS;

// An element of a slice that stands for rows.
pub trait RowUnit {
    ghost rows_of: { List Self → List ℕ };

    // Compile the half between two rows, which has at most as many as a pattern may.
    fn compile_half(
        rows: &[Self],
        from: usize,
        to: usize,
        create: bool,
        kinds: &[u8],
        set: SetCells,
        buffer: &mut Code,
    ) -> KnownAnswer
        requires { (from ≤ to) × (to ≤ length (rows_of rows.now)) × (to - from ≤ most_pattern_rows) }
        ensures { outcome_of result buffer.new
            ≡ compile_known create (take (to - from) (drop from (rows_of rows.now))) kinds.now (known set.objects) (known set.named) buffer.old };

    // A row takes at least one element.
    ghost fewer: { (units : List Self) → length (rows_of units) ≤ length units };
}

impl RowUnit for u64 {
    ghost rows_of = { λ rows. rows };

    ghost fewer = { λ rows. le_refl (length rows) };

    fn compile_half(
        rows: &[u64],
        from: usize,
        to: usize,
        create: bool,
        kinds: &[u8],
        set: SetCells,
        buffer: &mut Code,
    ) -> KnownAnswer {
        compiler::compile_known(
            create,
            &rows[from..to],
            kinds,
            set.objects,
            set.named,
            buffer,
        )
    }
}

impl RowUnit for u8 {
    ghost rows_of = { elements 8 };

    ghost fewer = { fewer_rows };

    fn compile_half(
        rows: &[u8],
        from: usize,
        to: usize,
        create: bool,
        kinds: &[u8],
        set: SetCells,
        buffer: &mut Code,
    ) -> KnownAnswer {
        let mut pattern = [0u64; MOST_PATTERN_ROWS];
        word::unpack_words(&rows[8 * from..8 * to], &mut pattern);
        compiler::compile_known(
            create,
            &pattern[..to - from],
            kinds,
            set.objects,
            set.named,
            buffer,
        )
    }
}
