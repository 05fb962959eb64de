// The entries for C: plain numbers and byte slices, fields high byte first. `cram_c` exports each.
#![tactic(auto)]

ghost use Rattle.std.specs.Prelude.{◌≡◌};
ghost use Rattle.lending.specs.Entries.{compile_entry, run_entry};

use answers::{Compiled, Ran};
use lending::{CompileAnswer, RunAnswer, arrays, compiles, runs};
use numbers::limits::{MOST_CERTIFICATES, MOST_CODE_WORDS, MOST_PATTERN_ROWS, VARIABLES};
use stores::cells::Cells;

pub mod reading;
pub mod role_entry;
mod round_tables;
mod run_tables;
pub mod session;

// The code of a pattern; create is 0 for matching, 1 for creating.
pub fn cram_compile(
    create: u8,
    pattern: &[u8],
    kinds: &[u8],
    objects: &[u8],
    named: &[u8],
    code: &mut [u8],
) -> CompileAnswer
    ensures { record { answer = result; code = code.new }
        ≡ compile_entry create pattern.now kinds.now objects.now named.now code.old }
{
    if !compiles::lengths_fit(
        create,
        pattern.len(),
        objects.len(),
        named.len(),
        code.len(),
    ) {
        return compiles::numbers(Compiled::Limit);
    }
    let rows = arrays::rows::<MOST_PATTERN_ROWS>(pattern);
    let object_cells = arrays::cells::<VARIABLES>(objects);
    let named_cells = arrays::cells::<VARIABLES>(named);
    let mut buffer = compiler::no_words();
    let left = compiler::compile_known(
        create == 1,
        &rows[..pattern.len() / 8],
        kinds,
        compiler::set_cells(&object_cells),
        compiler::set_cells(&named_cells),
        &mut buffer,
    );
    let Compiled::Done(count) = left.answer else {
        return compiles::numbers(left.answer);
    };
    compiles::deliver(&buffer[..count as usize], code)
}

// Code over stores and a table of terms.
pub fn cram_run(
    kinds: &[u8],
    objects: &mut [u8],
    messages: &mut [u8],
    certificates: &[u8],
    accumulator: u32,
    terms: &mut [u8],
    counter: u32,
    code: &[u8],
) -> RunAnswer
    ensures { record { answer = result; objects = objects.new; messages = messages.new; terms = terms.new }
        ≡ run_entry (record {
          kinds = kinds.now;
          objects = objects.old;
          messages = messages.old;
          certificates = certificates.now;
          accumulator = accumulator;
          terms = terms.old;
          counter = counter;
        }) code.now }
{
    if !runs::lengths_fit(
        objects.len(),
        messages.len(),
        certificates.len(),
        terms.len(),
        code.len(),
        MOST_CODE_WORDS,
    ) {
        return runs::numbers(Ran::Limit, 0, counter, accumulator);
    }
    let pairs = arrays::rows::<MOST_CERTIFICATES>(certificates);
    let words = arrays::code_words::<MOST_CODE_WORDS>(code);
    let cells = Cells {
        objects: arrays::cells(objects),
        messages: arrays::cells(messages),
    };
    let left = run_tables::over_table(
        kinds,
        cells,
        &pairs[..certificates.len() / 8],
        accumulator,
        terms,
        counter,
        &words[..code.len() / 4],
    );
    word::pack_pairs(&left.cells.objects, objects);
    word::pack_pairs(&left.cells.messages, messages);
    runs::numbers(
        left.answer,
        left.used as u32,
        left.counter,
        left.accumulator,
    )
}
