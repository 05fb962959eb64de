// Figure 2 by walking the pattern: the message in hand against the pattern of a row. A cell that must be free has no row to hand on: its test is no `set_row`.
#![tactic(auto)]

ghost use Rattle.std.specs.Prelude.{◌≡◌};
ghost use Rattle.numbers.specs.Kinds.{kind_in};
ghost use Rattle.patterns.specs.Forms.{encryption_form, tuple_form, let_form};
ghost use Rattle.patterns.specs.Row.{pattern_fields};
ghost use Rattle.patterns.specs.Standing.{Stands, StandsAt, Leaf};
ghost use Rattle.machine.specs.Machine.{slices, Within};
ghost use Rattle.leaf_matching.specs.Matched.{WalkMatches};

use answers::Reason;
use leaf_matching::forms;
use machine::cells::{message_at, set_row};
use patterns::forms as form;
use stores::cells::UNSET;
use terms::part;
use walks::making::decode;
use walks::{Cells, Ended, Ground, Walk, Walked, asked_at};

// The pattern of a row with no children.
fn match_leaf(
    ground: &Ground<'_>,
    terms: &mut [u64],
    cells: &mut Cells,
    walk: Walk,
    row: u8,
    word: u64,
) -> Walked
    requires stands_at { StandsAt ground.now.rows.now row word }
    requires leaf { Leaf (pattern_fields word).tag }
    requires within { Within terms.old walk.used }
    ensures { WalkMatches ground.now.rows.now (kind_in ground.now.kinds.now) row walk
        (slices cells.old.objects cells.old.named terms.old ground.now.certificates.now) result
        (slices cells.new.objects cells.new.named terms.new ground.now.certificates.now) }
{
    let v = patterns::variable(word);
    let r = patterns::raw(word);
    let y = patterns::y(word);
    match patterns::tag(word) {
        form::OBJECT_VARIABLE => forms::match_object(
            ground.kinds,
            terms,
            &mut cells.objects,
            walk,
            row,
            v,
        ),
        form::RAW_VARIABLE => forms::match_raw(&mut cells.named, walk, row, r),
        form::CONSTANT => forms::match_constant(
            terms,
            &mut cells.objects,
            walk,
            row,
            v,
            patterns::byte(word),
        ),
        form::OPPOSITE => forms::match_opposite(terms, &mut cells.objects, walk, row, v, y),
        form::KEY_OF => forms::match_key_of(
            ground.kinds,
            ground.certificates,
            terms,
            &mut cells.objects,
            walk,
            row,
            v,
            y,
        ),
        form::SIGNATURE => forms::match_signature(
            ground.kinds,
            ground.certificates,
            terms,
            &mut cells.objects,
            &cells.named,
            walk,
            row,
            word,
        ),
        _ => forms::match_hash(
            ground.kinds,
            terms,
            &mut cells.objects,
            &cells.named,
            walk,
            row,
            v,
            r,
        ),
    }
}

// The pattern of a row.
#[cycle(matching)]
pub fn match_row(
    ground: &Ground<'_>,
    terms: &mut [u64],
    cells: &mut Cells,
    walk: Walk,
    row: u8,
) -> Walked
    requires stands { Stands ground.now.rows.now row }
    requires within { Within terms.old walk.used }
    ensures { WalkMatches ground.now.rows.now (kind_in ground.now.kinds.now) row walk
        (slices cells.old.objects cells.old.named terms.old ground.now.certificates.now) result
        (slices cells.new.objects cells.new.named terms.new ground.now.certificates.now) }
{
    let word = ground.rows[row as usize];
    match patterns::tag(word) {
        form::ENCRYPTION => match_encryption(ground, terms, cells, walk, row, word),
        form::TUPLE => match_tuple(ground, terms, cells, walk, row, word),
        form::LET => match_let(ground, terms, cells, walk, row, word),
        _ => match_leaf(ground, terms, cells, walk, row, word),
    }
}

// e : E(key, p). Only a plain key opens: another one was refused before the walk began.
#[cycle(matching)]
fn match_encryption(
    ground: &Ground<'_>,
    terms: &mut [u64],
    cells: &mut Cells,
    walk: Walk,
    row: u8,
    word: u64,
) -> Walked
    requires stands_at { StandsAt ground.now.rows.now row word }
    requires word_value { (pattern_fields word).tag ≡ encryption_form }
    requires within { Within terms.old walk.used }
    ensures { WalkMatches ground.now.rows.now (kind_in ground.now.kinds.now) row walk
        (slices cells.old.objects cells.old.named terms.old ground.now.certificates.now) result
        (slices cells.new.objects cells.new.named terms.new ground.now.certificates.now) }
{
    if patterns::key_form(word) != form::PLAIN_KEY {
        return Err(Ended::Stuck(row, Reason::Unset));
    }
    let e = patterns::variable(word);
    let inner = forms::open(
        ground.kinds,
        terms,
        &mut cells.objects,
        walk,
        row,
        e,
        patterns::key(word),
    )?;
    let children = patterns::slots(word);
    match_row(ground, terms, cells, inner, children[0])
}

// t : [p1 .. pn]: the parts from left to right.
#[cycle(matching)]
fn match_tuple(
    ground: &Ground<'_>,
    terms: &mut [u64],
    cells: &mut Cells,
    walk: Walk,
    row: u8,
    word: u64,
) -> Walked
    requires stands_at { StandsAt ground.now.rows.now row word }
    requires word_value { (pattern_fields word).tag ≡ tuple_form }
    requires within { Within terms.old walk.used }
    ensures { WalkMatches ground.now.rows.now (kind_in ground.now.kinds.now) row walk
        (slices cells.old.objects cells.old.named terms.old ground.now.certificates.now) result
        (slices cells.new.objects cells.new.named terms.new ground.now.certificates.now) }
{
    let message = walk.message;
    let inner = decode(
        ground.kinds,
        terms,
        &mut cells.objects,
        walk,
        row,
        patterns::variable(word),
    )?;
    let n = patterns::count(word);
    let children = patterns::slots(word);
    let parts = asked_at(row, world::parts(terms, message, n))?;
    let mut here = inner;
    for (slot, child) in children[..n as usize].iter().enumerate() {
        let met = here.meeting(part(parts, slot));
        here = match_row(ground, terms, cells, met, *child)?;
    }
    Ok(here)
}

// let r = p1 in p2: p2 first, which must set r, and then p1 on what r holds.
#[cycle(matching)]
fn match_let(
    ground: &Ground<'_>,
    terms: &mut [u64],
    cells: &mut Cells,
    walk: Walk,
    row: u8,
    word: u64,
) -> Walked
    requires stands_at { StandsAt ground.now.rows.now row word }
    requires word_value { (pattern_fields word).tag ≡ let_form }
    requires within { Within terms.old walk.used }
    ensures { WalkMatches ground.now.rows.now (kind_in ground.now.kinds.now) row walk
        (slices cells.old.objects cells.old.named terms.old ground.now.certificates.now) result
        (slices cells.new.objects cells.new.named terms.new ground.now.certificates.now) }
{
    let r = patterns::raw(word);
    let known = message_at(&cells.named, r);
    if known.0 != UNSET {
        return Err(Ended::Stuck(row, Reason::Unset));
    }
    let children = patterns::slots(word);
    let after = match_row(ground, terms, cells, walk, children[1])?;
    let bound = asked_at(row, set_row(message_at(&cells.named, r)))?;
    let met = after.meeting(bound);
    match_row(ground, terms, cells, met, children[0])
}
