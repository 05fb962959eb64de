// Figure 3: a walk of the pattern creates its message. It differs from figure 2, which is `walk_matching`, form by form. A cell that must be free has no row to hand on: its test is no `set_row`.
#![tactic(auto)]

ghost use Rattle.std.specs.Prelude.{◌≡◌};
ghost use Rattle.patterns.specs.Forms.{encryption_form, tuple_form, let_form};
ghost use Rattle.patterns.specs.Row.{pattern_fields};
ghost use Rattle.patterns.specs.Standing.{pattern_in, Stands, StandsAt};
ghost use Rattle.machine.specs.Machine.{slices, Within};
ghost use Rattle.walk_leaves.specs.Creation.{CreatesBy};

use answers::Reason;
use machine::cells::{message_at, set_message};
use numbers::limits::MOST_PARTS;
use patterns::forms as form;
use stores::cells::UNSET;
use walk_leaves::create_leaf;
use walk_values::keys::create_key;
use walk_values::values::{make_value, seal};
use walks::{Cells, Ended, Ground, Walk, Walked};

// The pattern of a row. The message that is created is in the hand of the walk that goes on.
#[cycle(creating)]
pub fn create_row(
    ground: &Ground<'_>,
    terms: &mut [u64],
    cells: &mut Cells,
    walk: Walk,
    row: u8,
) -> Walked
    requires stands { Stands ground.now.rows.now row }
    requires within { Within terms.old walk.used }
    ensures { CreatesBy ground.now.kinds.now (pattern_in ground.now.rows.now row) walk
        (slices cells.old.objects cells.old.named terms.old ground.now.certificates.now) result
        (slices cells.new.objects cells.new.named terms.new ground.now.certificates.now) }
{
    let word = ground.rows[row as usize];
    match patterns::tag(word) {
        form::ENCRYPTION => create_encryption(ground, terms, cells, walk, row, word),
        form::TUPLE => create_tuple(ground, terms, cells, walk, row, word),
        form::LET => create_let(ground, terms, cells, walk, row, word),
        _ => create_leaf(
            ground,
            terms,
            &mut cells.objects,
            &cells.named,
            walk,
            row,
            word,
        ),
    }
}

// e : E(key, p): the key, then p, then the encryption.
#[cycle(creating)]
fn create_encryption(
    ground: &Ground<'_>,
    terms: &mut [u64],
    cells: &mut Cells,
    walk: Walk,
    row: u8,
    word: u64,
) -> Walked
    requires stands_at { StandsAt ground.now.rows.now row word }
    requires word_value { (pattern_fields word).tag ≡ encryption_form }
    requires within { Within terms.old walk.used }
    ensures { CreatesBy ground.now.kinds.now (pattern_in ground.now.rows.now row) walk
        (slices cells.old.objects cells.old.named terms.old ground.now.certificates.now) result
        (slices cells.new.objects cells.new.named terms.new ground.now.certificates.now) }
{
    let e = patterns::variable(word);
    let children = patterns::slots(word);
    let part = children[0];
    let next = create_key(
        ground.kinds,
        ground.certificates,
        terms,
        &mut cells.objects,
        walk,
        row,
        word,
    )?;
    let last = create_row(ground, terms, cells, next, part)?;
    let sealed = world::encrypt(next.message, last.message);
    seal(
        ground.kinds,
        terms,
        &mut cells.objects,
        last,
        row,
        e,
        sealed,
    )
}

// t : [p1 .. pn]: the parts from left to right, then the tuple of their rows.
#[cycle(creating)]
fn create_tuple(
    ground: &Ground<'_>,
    terms: &mut [u64],
    cells: &mut Cells,
    walk: Walk,
    row: u8,
    word: u64,
) -> Walked
    requires stands_at { StandsAt ground.now.rows.now row word }
    requires word_value { (pattern_fields word).tag ≡ tuple_form }
    requires within { Within terms.old walk.used }
    ensures { CreatesBy ground.now.kinds.now (pattern_in ground.now.rows.now row) walk
        (slices cells.old.objects cells.old.named terms.old ground.now.certificates.now) result
        (slices cells.new.objects cells.new.named terms.new ground.now.certificates.now) }
{
    let t = patterns::variable(word);
    let children = patterns::slots(word);
    let count = patterns::count(word) as usize;
    let mut parts = [0u16; MOST_PARTS];
    let mut here = walk;
    for (k, child) in children[..count].iter().enumerate() {
        here = create_row(ground, terms, cells, here, *child)?;
        parts[k] = here.message.0;
    }
    make_value(
        terms,
        &mut cells.objects,
        here,
        row,
        t,
        world::tuple(&parts[..count]),
    )
}

// let r = p1 in p2: p1, then r, then p2.
#[cycle(creating)]
fn create_let(
    ground: &Ground<'_>,
    terms: &mut [u64],
    cells: &mut Cells,
    walk: Walk,
    row: u8,
    word: u64,
) -> Walked
    requires stands_at { StandsAt ground.now.rows.now row word }
    requires word_value { (pattern_fields word).tag ≡ let_form }
    requires within { Within terms.old walk.used }
    ensures { CreatesBy ground.now.kinds.now (pattern_in ground.now.rows.now row) walk
        (slices cells.old.objects cells.old.named terms.old ground.now.certificates.now) result
        (slices cells.new.objects cells.new.named terms.new ground.now.certificates.now) }
{
    let r = patterns::raw(word);
    let children = patterns::slots(word);
    let p1 = children[0];
    let p2 = children[1];
    let next = create_row(ground, terms, cells, walk, p1)?;
    let known = message_at(&cells.named, r);
    if known.0 != UNSET {
        return Err(Ended::Stuck(row, Reason::Unset));
    }
    set_message(&mut cells.named, r, next.message);
    create_row(ground, terms, cells, next, p2)
}
