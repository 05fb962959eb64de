// What a bundle gives: it is opened, compiled and run.
#![tactic(auto)]

ghost use Rattle.std.specs.Prelude.{◌≡◌, ◌≤◌, length, replicate, Some};
ghost use Rattle.terms.specs.Rules.{used_rows};
ghost use Rattle.numbers.specs.Limits.{variables, message_cells, most_code_words, most_term_rows};
ghost use Rattle.calls.specs.Run.{run};
ghost use Rattle.bundles.specs.Opening.{bundle_in, opened};
ghost use Rattle.bundles.specs.Given.{lent_to, compile_of, given_read, given_by};
ghost use Rattle.outcomes.specs.Held.{held_by};

use answers::Compiled;
use bundles::Header;
use numbers::limits::VARIABLES;
use running::Ended;

pub mod parts;
pub mod rooms;

// Why a bundle has no outcome: the number and the place that the listing prints.
#[derive(Clone, Copy)]
pub struct Refusal {
    pub number: u32,
    pub place: u32,
}

// Compiles the bundle's pattern.
fn compiled(bytes: &[u8], header: Header, code: &mut [u32]) -> Compiled
    requires { opened bytes.now ≡ Some header }
    ensures { record { answer = result; code = code.new } ≡ compile_of (bundle_in bytes.now) code.old }
{
    let pattern = parts::pattern(bytes, header);
    let count = header.pattern_rows as usize;
    let kinds = parts::kinds(bytes, header);
    let objects = parts::objects(bytes, header);
    let messages = parts::messages(bytes, header);
    compiler::compile(
        header.create,
        &pattern[..count],
        &kinds,
        &objects,
        &messages[..VARIABLES],
        code,
    )
}

// Runs code over what the bundle holds, which is put into the lent slices.
fn ran(
    bytes: &[u8],
    header: Header,
    code: &[u32],
    objects: &mut [u16],
    messages: &mut [u16],
    rows: &mut [u64],
) -> Ended
    requires { (opened bytes.now ≡ Some header) × (length code.now ≤ most_code_words) × (length objects.old ≡ variables) ×
        (length messages.old ≡ message_cells) × (length rows.old ≡ most_term_rows) }
    ensures { (record { answer = result.answer; objects = objects.new; messages = messages.new; accumulator = result.accumulator; terms = rows.new; counter = result.counter }
        ≡ run (lent_to (bundle_in bytes.now)) code.now)
        × (result.used ≡ used_rows rows.new) }
{
    let kinds = parts::kinds(bytes, header);
    let pairs = parts::certificates(bytes, header);
    let count = header.certificates as usize;
    bundles::object_cells(bytes, header, objects);
    bundles::message_cells(bytes, header, messages);
    bundles::term_rows(bytes, header, rows);
    running::run(
        &kinds,
        objects,
        messages,
        &pairs[..count],
        header.accumulator as u32,
        rows,
        header.counter,
        code,
    )
}

// A spare certificate bit is looked at before compile, and code runs unless compile refuses.
fn given_by_bundle(
    bytes: &[u8],
    header: Header,
    code: &mut [u32],
    objects: &mut [u16],
    messages: &mut [u16],
    rows: &mut [u64],
) -> Result<(u32, Ended), Refusal>
    requires { (opened bytes.now ≡ Some header) × (code.old ≡ replicate most_code_words 0) × (length objects.old ≡ variables) ×
        (length messages.old ≡ message_cells) × (length rows.old ≡ most_term_rows) }
    ensures { record { gave = result; code = code.new; objects = objects.new; messages = messages.new; rows = rows.new }
        ≡ held_by (given_read (Some (bundle_in bytes.now))) code.old objects.old messages.old rows.old }
{
    let pairs = parts::certificates(bytes, header);
    let count = header.certificates as usize;
    if !bundles::certificates_clear(&pairs[..count]) {
        return Err(Refusal {
            number: 3,
            place: 0,
        });
    }
    let answer = compiled(bytes, header, code);
    let Compiled::Done(words) = answer else {
        let number = answer.number();
        let place = answer.place();
        return Err(Refusal { number, place });
    };
    let written = words as usize;
    let ended = ran(bytes, header, &code[..written], objects, messages, rows);
    Ok((words, ended))
}

// What any bytes give, in slices that hold every outcome: so many words of code and how their run ended, or a refusal.
pub fn given(
    bytes: &[u8],
    code: &mut [u32],
    objects: &mut [u16],
    messages: &mut [u16],
    rows: &mut [u64],
) -> Result<(u32, Ended), Refusal>
    requires { (code.old ≡ replicate most_code_words 0) × (length objects.old ≡ variables) × (length messages.old ≡ message_cells) × (length rows.old ≡ most_term_rows) }
    ensures { record { gave = result; code = code.new; objects = objects.new; messages = messages.new; rows = rows.new }
        ≡ held_by (given_by bytes.now) code.old objects.old messages.old rows.old }
{
    let Some(header) = bundles::open(bytes) else {
        return Err(Refusal {
            number: 1,
            place: 0,
        });
    };
    given_by_bundle(bytes, header, code, objects, messages, rows)
}
