// One step of the machine: figure 4, an arm for each instruction.
#![tactic(auto)]

ghost use Rattle.std.specs.Prelude.{T};
ghost use Rattle.code.specs.Words.{operands_fit};
ghost use Rattle.numbers.specs.Kinds.{kind_in};
ghost use Rattle.theory.specs.RowModel.{row_world};
ghost use Rattle.theory.specs.Machine.{step};
ghost use Rattle.machine.specs.Machine.{slices, state_at, Within, Agrees};

use code::Instruction;
use machine::{Registers, Step};
use stores::cells::Cells;

pub fn step(
    registers: Registers,
    instruction: Instruction,
    kinds: &[u8],
    cells: &mut Cells,
    certificates: &[u64],
    rows: &mut [u64],
) -> Step
    requires t { T (operands_fit (kind_in kinds.now) instruction) }
    requires within { Within rows.old registers.used }
    ensures { Agrees (slices cells.old.objects cells.old.messages rows.old certificates.now)
        (step row_world (kind_in kinds.now) registers.place instruction
        (state_at registers (slices cells.old.objects cells.old.messages rows.old certificates.now)))
        result (slices cells.new.objects cells.new.messages rows.new certificates.now) }
{
    let Cells { objects, messages } = cells;
    match instruction {
        Instruction::Load(r) => registers.load(messages, r),
        Instruction::Store(r) => registers.store(messages, r),
        Instruction::StoreConst(c, byte) => registers.store_const(rows, objects, c, byte),
        Instruction::Decode(v) => registers.decode(kinds, rows, objects, v),
        Instruction::Encode(v) => registers.encode(objects, v),
        Instruction::Create(v) => registers.create(kinds, rows, objects, v),
        Instruction::AnalyzeTuple(t, b, n) => registers.analyze_tuple(
            rows, objects, messages, t, b, n,
        ),
        Instruction::CreateTuple(t, b, n) => registers.create_tuple(
            rows, objects, messages, t, b, n,
        ),
        Instruction::Opposite(private, public) => registers.opposite(
            rows, objects, private, public,
        ),
        Instruction::KeyOf => registers.key_of(certificates),
        Instruction::Match(r) => registers.compare(messages, r),
        Instruction::Encrypt(v) => registers.encrypt(rows, objects, v),
        Instruction::Decrypt(v) => registers.decrypt(rows, objects, v),
        Instruction::Sign(v) => registers.sign(rows, objects, v),
        Instruction::Verify(v, r) => registers.verify(rows, objects, messages, v, r),
        Instruction::Hash(_) => registers.hash(rows),
    }
}
