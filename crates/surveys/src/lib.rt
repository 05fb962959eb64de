// 6 and 7 over a whole pattern, before anything is matched or created: no word is written, no scratch number taken.
#![tactic(auto)]

mod created;
mod keys;
mod matched;

ghost use Rattle.std.specs.Prelude.{◌≡◌};
ghost use Rattle.std.specs.Prelude.{None};
ghost use Rattle.answers.specs.First.{first};
ghost use Rattle.patterns.specs.Forms.{encryption_form, tuple_form, let_form};
ghost use Rattle.patterns.specs.Row.{pattern_fields};
ghost use Rattle.patterns.specs.Standing.{Stands, StandsAt, Leaf};
ghost use Rattle.calls.specs.Direct.{refused_by};
ghost use Rattle.calls.specs.Half.{known_refusals, known_emitted};
ghost use Rattle.knowing.specs.Known.{known};
ghost use Rattle.knowing.specs.Findings.{finding_of};
ghost use Rattle.surveys.specs.Surveys.{SurveysRow, ChildrenAt, SurveysParts};

use answers::Compiled;
use knowing::{
    Emission, emission_from, found, free_raw, read_object, read_raw, write_object, write_raw,
    wrong_kind,
};
use layout::{Kinds, Rows, all_kinds, lay_rows, no_rows};
use patterns::forms as form;

// The pattern of a row with no children.
fn survey_leaf(
    create: bool,
    rows: &Rows,
    kinds: &Kinds,
    emission: &mut Emission,
    row: u8,
    word: u64,
)
    requires stands_at { StandsAt rows.now row word }
    requires leaf { Leaf (pattern_fields word).tag }
    ensures { SurveysRow create rows.now kinds.now row emission.old emission.new }
{
    if create {
        created::create_leaf(rows, kinds, emission, row, word);
    } else {
        matched::match_leaf(rows, emission, row, word);
    }
}

// The pattern of a row.
#[cycle(surveying)]
fn survey_row(create: bool, rows: &Rows, kinds: &Kinds, emission: &mut Emission, row: u8)
    requires { Stands rows.now row }
    ensures { SurveysRow create rows.now kinds.now row emission.old emission.new }
{
    let word = rows[row as usize];
    let tag = patterns::tag(word);
    match tag {
        form::ENCRYPTION => survey_encryption(create, rows, kinds, emission, row, word),
        form::TUPLE => survey_tuple(create, rows, kinds, emission, row, word),
        form::LET => survey_let(create, rows, kinds, emission, row, word),
        _ => survey_leaf(create, rows, kinds, emission, row, word),
    }
}

// e : E(key, p): matched, e is set before p is looked at and only a plain key opens; created, e is set last.
#[cycle(surveying)]
fn survey_encryption(
    create: bool,
    rows: &Rows,
    kinds: &Kinds,
    emission: &mut Emission,
    row: u8,
    word: u64,
)
    requires stands_at { StandsAt rows.now row word }
    requires word_value { (pattern_fields word).tag ≡ encryption_form }
    ensures { SurveysRow create rows.now kinds.now row emission.old emission.new }
{
    let e = patterns::variable(word);
    let children = patterns::slots(word);
    if create {
        keys::create_key(kinds, emission, row, word);
        survey_row(true, rows, kinds, emission, children[0]);
        write_object(emission, row, e);
    } else if patterns::key_form(word) == form::PLAIN_KEY {
        write_object(emission, row, e);
        read_object(emission, row, patterns::key(word));
        survey_row(false, rows, kinds, emission, children[0]);
    } else {
        wrong_kind(emission, row);
    }
}

// t : [p1 .. pn]: matched, t is set before the parts are looked at; created, after them.
#[cycle(surveying)]
fn survey_tuple(
    create: bool,
    rows: &Rows,
    kinds: &Kinds,
    emission: &mut Emission,
    row: u8,
    word: u64,
)
    requires stands_at { StandsAt rows.now row word }
    requires word_value { (pattern_fields word).tag ≡ tuple_form }
    ensures { SurveysRow create rows.now kinds.now row emission.old emission.new }
{
    let t = patterns::variable(word);
    let slots = patterns::slots(word);
    let n = patterns::count(word);
    let children = &slots[..n as usize];
    if !create {
        write_object(emission, row, t);
        survey_parts(false, rows, kinds, emission, row, children);
    } else {
        survey_parts(true, rows, kinds, emission, row, children);
        write_object(emission, row, t);
    }
}

// The parts of a tuple, from left to right.
#[cycle(surveying)]
fn survey_parts(
    create: bool,
    rows: &Rows,
    kinds: &Kinds,
    emission: &mut Emission,
    row: u8,
    children: &[u8],
)
    requires { ChildrenAt rows.now row children.now }
    ensures { SurveysParts create rows.now kinds.now children.now emission.old emission.new }
{
    for &child in children {
        survey_row(create, rows, kinds, emission, child);
    }
}

// let r = p1 in p2: matched, r must be unset and p2 set it before p1 is looked at; created, p1 comes before r and p2.
#[cycle(surveying)]
fn survey_let(create: bool, rows: &Rows, kinds: &Kinds, emission: &mut Emission, row: u8, word: u64)
    requires stands_at { StandsAt rows.now row word }
    requires word_value { (pattern_fields word).tag ≡ let_form }
    ensures { SurveysRow create rows.now kinds.now row emission.old emission.new }
{
    let r = patterns::raw(word);
    let children = patterns::slots(word);
    if create {
        survey_row(true, rows, kinds, emission, children[0]);
        write_raw(emission, row, r);
        survey_row(true, rows, kinds, emission, children[1]);
    } else {
        free_raw(emission, row, r);
        survey_row(false, rows, kinds, emission, children[1]);
        read_raw(emission, row, r);
        survey_row(false, rows, kinds, emission, children[0]);
    }
}

// What 6 and 7 find of a pattern in which 1, 3, 4 and 5 found nothing, from which cells are set: cell 0 at the most significant bit.
pub fn survey(
    create: bool,
    pattern: &[u64],
    kinds: &[u8],
    objects: u64,
    named: u64,
) -> Result<(), Compiled>
    requires { first (known_refusals create pattern.now kinds.now (known objects)) ≡ None }
    ensures { result ≡ finding_of (refused_by (known_emitted create pattern.now kinds.now (record { objects = known objects; raws = known named; next = 0 }))) }
{
    let mut rows = no_rows();
    lay_rows(pattern, &mut rows);
    let root = (pattern.len() - 1) as u8;
    let mut emission = emission_from(objects, named);
    let all = all_kinds(kinds);
    survey_row(create, &rows, &all, &mut emission, root);
    found(emission)
}
