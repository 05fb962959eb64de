// Figure 6: the code that creates a message. It differs from figure 5, which is `matching`, form by form.
#![tactic(auto)]

pub mod forms;
pub mod keys;

ghost use Rattle.std.specs.Prelude.{◌≡◌, ◌≤◌, take};
ghost use Rattle.numbers.specs.Limits.{most_parts};
ghost use Rattle.patterns.specs.Forms.{encryption_form, signature_form, tuple_form, let_form};
ghost use Rattle.patterns.specs.Row.{pattern_fields};
ghost use Rattle.patterns.specs.Standing.{Leaf};
ghost use Rattle.emission.specs.Budget.{Row, RowAt};
ghost use Rattle.emission.specs.Parts.{PartsAt};
ghost use Rattle.creating.specs.Creates.{Creates, CreatesParts};

use emission::{Part, instructions, parts_of, scratch};
use knowing::{Code, Emission, take};
use layout::{Kinds, Rows};
use numbers::limits::MOST_PARTS;
use patterns::forms as form;

// s : S(key, r)
fn create_signature(
    rows: &Rows,
    kinds: &Kinds,
    code: &mut Code,
    emission: &mut Emission,
    row: u8,
    word: u64,
)
    requires row_at { RowAt rows.now row word emission.old }
    requires word_value { (pattern_fields word).tag ≡ signature_form }
    ensures { Creates rows.now kinds.now row emission.old code.old emission.new code.new }
{
    let s = patterns::variable(word);
    let key = patterns::key(word);
    let r = patterns::raw(word);
    keys::create_key(kinds, code, emission, row, word);
    instructions::load(code, emission, row, r);
    instructions::sign(code, emission, row, key);
    instructions::decode(code, emission, row, s);
}

// The pattern of a row with no children.
fn create_leaf(
    rows: &Rows,
    kinds: &Kinds,
    code: &mut Code,
    emission: &mut Emission,
    row: u8,
    word: u64,
)
    requires row_at { RowAt rows.now row word emission.old }
    requires leaf { Leaf (pattern_fields word).tag }
    ensures { Creates rows.now kinds.now row emission.old code.old emission.new code.new }
{
    let tag = patterns::tag(word);
    let v = patterns::variable(word);
    match tag {
        form::OBJECT_VARIABLE => forms::create_object(kinds, code, emission, row, v),
        form::RAW_VARIABLE => instructions::load(code, emission, row, patterns::raw(word)),
        form::CONSTANT => forms::create_constant(code, emission, row, v, patterns::byte(word)),
        form::OPPOSITE => forms::create_opposite(kinds, code, emission, row, v, patterns::y(word)),
        form::KEY_OF => keys::certified_key(code, emission, row, v, patterns::y(word)),
        form::SIGNATURE => create_signature(rows, kinds, code, emission, row, word),
        _ => forms::create_hash(code, emission, row, v, patterns::raw(word)),
    }
}

// The pattern of a row.
#[cycle(creating)]
pub fn create_row(rows: &Rows, kinds: &Kinds, code: &mut Code, emission: &mut Emission, row: u8)
    requires { Row rows.now row emission.old }
    ensures { Creates rows.now kinds.now row emission.old code.old emission.new code.new }
{
    let word = rows[row as usize];
    let tag = patterns::tag(word);
    match tag {
        form::ENCRYPTION => create_encryption(rows, kinds, code, emission, row, word),
        form::TUPLE => create_tuple(rows, kinds, code, emission, row, word),
        form::LET => create_let(rows, kinds, code, emission, row, word),
        _ => create_leaf(rows, kinds, code, emission, row, word),
    }
}

// e : E(key, p)
#[cycle(creating)]
fn create_encryption(
    rows: &Rows,
    kinds: &Kinds,
    code: &mut Code,
    emission: &mut Emission,
    row: u8,
    word: u64,
)
    requires row_at { RowAt rows.now row word emission.old }
    requires word_value { (pattern_fields word).tag ≡ encryption_form }
    ensures { Creates rows.now kinds.now row emission.old code.old emission.new code.new }
{
    let e = patterns::variable(word);
    let key = patterns::key(word);
    let children = patterns::slots(word);
    keys::create_key(kinds, code, emission, row, word);
    create_row(rows, kinds, code, emission, children[0]);
    instructions::encrypt(code, emission, row, key);
    instructions::decode(code, emission, row, e);
}

// t : [p1 .. pn]
#[cycle(creating)]
fn create_tuple(
    rows: &Rows,
    kinds: &Kinds,
    code: &mut Code,
    emission: &mut Emission,
    row: u8,
    word: u64,
)
    requires row_at { RowAt rows.now row word emission.old }
    requires word_value { (pattern_fields word).tag ≡ tuple_form }
    ensures { Creates rows.now kinds.now row emission.old code.old emission.new code.new }
{
    let t = patterns::variable(word);
    let n = patterns::count(word);
    let first = take(emission, n);
    let parts = parts_of(patterns::slots(word), first);
    create_parts(rows, kinds, code, emission, row, parts, n);
    let cell = scratch(first);
    instructions::create_tuple(code, emission, row, t, cell, n);
    instructions::encode(code, emission, row, t);
}

// The parts of a tuple, from left to right, each into its scratch cell.
#[cycle(creating)]
fn create_parts(
    rows: &Rows,
    kinds: &Kinds,
    code: &mut Code,
    emission: &mut Emission,
    row: u8,
    parts: [Part; MOST_PARTS],
    n: u8,
)
    requires few { n ≤ most_parts }
    requires parts_at { PartsAt rows.now row (take n parts) emission.old }
    ensures { CreatesParts rows.now kinds.now row (take n parts) emission.old code.old emission.new code.new }
{
    let own = &parts[..n as usize];
    for part in own {
        create_row(rows, kinds, code, emission, part.child);
        instructions::store(code, emission, row, scratch(part.scratch));
    }
}

// let r = p1 in p2
#[cycle(creating)]
fn create_let(
    rows: &Rows,
    kinds: &Kinds,
    code: &mut Code,
    emission: &mut Emission,
    row: u8,
    word: u64,
)
    requires row_at { RowAt rows.now row word emission.old }
    requires word_value { (pattern_fields word).tag ≡ let_form }
    ensures { Creates rows.now kinds.now row emission.old code.old emission.new code.new }
{
    let r = patterns::raw(word);
    let children = patterns::slots(word);
    create_row(rows, kinds, code, emission, children[0]);
    instructions::store(code, emission, row, r);
    create_row(rows, kinds, code, emission, children[1]);
}
