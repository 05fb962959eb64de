// Figure 5: the code that matches a pattern.
#![tactic(auto)]

pub mod forms;

ghost use Rattle.std.specs.Prelude.{◌≡◌, ◌≤◌, take};
ghost use Rattle.numbers.specs.Limits.{most_parts};
ghost use Rattle.patterns.specs.Forms.{encryption_form, signature_form, tuple_form, let_form};
ghost use Rattle.patterns.specs.Row.{pattern_fields};
ghost use Rattle.patterns.specs.Standing.{Leaf};
ghost use Rattle.emission.specs.Budget.{Row, RowAt};
ghost use Rattle.emission.specs.Parts.{PartsAt};
ghost use Rattle.matching.specs.Matches.{Matches, MatchesParts};

use emission::{Part, instructions, parts_of, scratch};
use knowing::{Code, Emission, free_raw, take, wrong_kind};
use layout::Rows;
use numbers::limits::MOST_PARTS;
use patterns::forms as form;

// s : S(key, r)
fn match_signature(rows: &Rows, code: &mut Code, emission: &mut Emission, row: u8, word: u64)
    requires row_at { RowAt rows.now row word emission.old }
    requires word_value { (pattern_fields word).tag ≡ signature_form }
    ensures { Matches rows.now row emission.old code.old emission.new code.new }
{
    instructions::decode(code, emission, row, patterns::variable(word));
    let key = patterns::key(word);
    let r = patterns::raw(word);
    let by = patterns::key_form(word);
    match by {
        form::PLAIN_KEY => instructions::verify(code, emission, row, key, r),
        form::OPPOSITE_KEY => forms::verify_opposite(
            code,
            emission,
            row,
            key,
            patterns::y(word),
            r,
        ),
        _ => forms::verify_certified(code, emission, row, key, patterns::y(word), r),
    }
}

// The pattern of a row with no children.
fn match_leaf(rows: &Rows, code: &mut Code, emission: &mut Emission, row: u8, word: u64)
    requires row_at { RowAt rows.now row word emission.old }
    requires leaf { Leaf (pattern_fields word).tag }
    ensures { Matches rows.now row emission.old code.old emission.new code.new }
{
    let tag = patterns::tag(word);
    let v = patterns::variable(word);
    match tag {
        form::OBJECT_VARIABLE => forms::match_object(code, emission, row, v),
        form::RAW_VARIABLE => forms::match_raw(code, emission, row, patterns::raw(word)),
        form::CONSTANT => forms::match_constant(code, emission, row, v, patterns::byte(word)),
        form::OPPOSITE => forms::match_opposite(code, emission, row, v, patterns::y(word)),
        form::KEY_OF => forms::match_key_of(code, emission, row, v, patterns::y(word)),
        form::SIGNATURE => match_signature(rows, code, emission, row, word),
        _ => forms::match_hash(code, emission, row, v, patterns::raw(word)),
    }
}

// The pattern of a row.
#[cycle(matching)]
pub fn match_row(rows: &Rows, code: &mut Code, emission: &mut Emission, row: u8)
    requires { Row rows.now row emission.old }
    ensures { Matches rows.now row emission.old code.old emission.new code.new }
{
    let word = rows[row as usize];
    let tag = patterns::tag(word);
    match tag {
        form::ENCRYPTION => match_encryption(rows, code, emission, row, word),
        form::TUPLE => match_tuple(rows, code, emission, row, word),
        form::LET => match_let(rows, code, emission, row, word),
        _ => match_leaf(rows, code, emission, row, word),
    }
}

// e : E(key, p)
#[cycle(matching)]
fn match_encryption(rows: &Rows, code: &mut Code, emission: &mut Emission, row: u8, word: u64)
    requires row_at { RowAt rows.now row word emission.old }
    requires word_value { (pattern_fields word).tag ≡ encryption_form }
    ensures { Matches rows.now row emission.old code.old emission.new code.new }
{
    if patterns::key_form(word) == form::PLAIN_KEY {
        instructions::decode(code, emission, row, patterns::variable(word));
        instructions::decrypt(code, emission, row, patterns::key(word));
        let children = patterns::slots(word);
        match_row(rows, code, emission, children[0]);
    } else {
        wrong_kind(emission, row);
    }
}

// t : [p1 .. pn]
#[cycle(matching)]
fn match_tuple(rows: &Rows, code: &mut Code, emission: &mut Emission, row: u8, word: u64)
    requires row_at { RowAt rows.now row word emission.old }
    requires word_value { (pattern_fields word).tag ≡ tuple_form }
    ensures { Matches rows.now row emission.old code.old emission.new code.new }
{
    let t = patterns::variable(word);
    let n = patterns::count(word);
    instructions::decode(code, emission, row, t);
    let first = take(emission, n);
    instructions::analyze_tuple(code, emission, row, t, scratch(first), n);
    let parts = parts_of(patterns::slots(word), first);
    match_parts(rows, code, emission, row, parts, n);
}

// The parts of a tuple, from left to right.
#[cycle(matching)]
fn match_parts(
    rows: &Rows,
    code: &mut Code,
    emission: &mut Emission,
    row: u8,
    parts: [Part; MOST_PARTS],
    n: u8,
)
    requires few { n ≤ most_parts }
    requires parts_at { PartsAt rows.now row (take n parts) emission.old }
    ensures { MatchesParts rows.now row (take n parts) emission.old code.old emission.new code.new }
{
    let own = &parts[..n as usize];
    for part in own {
        instructions::load(code, emission, row, scratch(part.scratch));
        match_row(rows, code, emission, part.child);
    }
}

// let r = p1 in p2: p2 first, which must set r, and then p1 on what r holds.
#[cycle(matching)]
fn match_let(rows: &Rows, code: &mut Code, emission: &mut Emission, row: u8, word: u64)
    requires row_at { RowAt rows.now row word emission.old }
    requires word_value { (pattern_fields word).tag ≡ let_form }
    ensures { Matches rows.now row emission.old code.old emission.new code.new }
{
    let r = patterns::raw(word);
    let children = patterns::slots(word);
    free_raw(emission, row, r);
    match_row(rows, code, emission, children[1]);
    instructions::load(code, emission, row, r);
    match_row(rows, code, emission, children[0]);
}
