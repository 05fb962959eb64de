// A term that is made takes the row that equals it, or else the first unused row. What a variable is to hold has to be of its kind.
// A cell that must be free has no row to hand on: its test is no `set_row`.
ghost use Rattle.std.specs.Prelude.{◌<◌, length};
ghost use Rattle.numbers.specs.Kinds.{kind_in};
ghost use Rattle.stores.specs.Cells.{held};
ghost use Rattle.theory.specs.RowModel.{row_world};
ghost use Rattle.theory.specs.Rules.{made, decodes};
ghost use Rattle.machine.specs.Machine.{with_objects, with_term_rows, Within};
ghost use Rattle.walks.specs.Walks.{founds, keeps, message_and_stores, WalksBy};

use super::{Ended, Walk, Walked, asked_at};
use answers::Reason;
use machine::cells::{kind_at, object_at, set_object, set_row};
use numbers::Object;
use stores::cells::UNSET;

// The term of a word comes into hand. `let .. else` on what the finder answers is the form of document 01.
pub fn make(terms: &mut [u64], walk: Walk, row: u8, word: u64) -> Walked
    requires { Within terms.old walk.used }
    ensures { WalksBy message_and_stores (founds row word) walk (λ x. with_term_rows x terms.old) result (λ x. with_term_rows x terms.new) }
{
    let Some((message, used)) = finder::find(terms, walk.used, word) else {
        return Err(Ended::NoRoom(row));
    };
    Ok(Walk {
        message,
        used,
        ..walk
    })
}

// The term of a word comes into hand and becomes the value of v.
pub fn keep(
    terms: &mut [u64],
    objects: &mut [u16],
    walk: Walk,
    row: u8,
    v: Object,
    word: u64,
) -> Walked
    requires within { Within terms.old walk.used }
    requires v_in_bounds { v.0 < length objects.old }
    ensures { WalksBy message_and_stores (keeps row v.0 word) walk
        (λ x. with_term_rows (with_objects x objects.old) terms.old) result
        (λ x. with_term_rows (with_objects x objects.new) terms.new) }
{
    let Some((message, used)) = finder::find(terms, walk.used, word) else {
        return Err(Ended::NoRoom(row));
    };
    set_object(objects, v, message);
    Ok(Walk {
        message,
        used,
        ..walk
    })
}

// v.decode(m): the message in hand becomes the value of v, which has none, where it is of v's kind.
pub fn decode(
    kinds: &[u8],
    terms: &[u64],
    objects: &mut [u16],
    walk: Walk,
    row: u8,
    v: Object,
) -> Walked
    requires within { Within terms.now walk.used }
    requires v_in_bounds { v.0 < length objects.old }
    ensures { WalksBy message_and_stores
        (λ n. decodes row_world (kind_in kinds.now) row v.0 (held walk.message.0) n (made row_world (kind_in kinds.now))) walk
        (λ x. with_term_rows (with_objects x objects.old) terms.now) result
        (λ x. with_term_rows (with_objects x objects.new) terms.now) }
{
    let known = object_at(objects, v);
    if known.0 != UNSET {
        return Err(Ended::Stuck(row, Reason::Unset));
    }
    let message = asked_at(row, set_row(walk.message))?;
    asked_at(row, world::is_kind(terms, kind_at(kinds, v), message))?;
    set_object(objects, v, message);
    Ok(walk)
}
