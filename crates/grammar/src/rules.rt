// Bad pattern rows: refusal 4.
ghost use Rattle.std.specs.Prelude.{◌≡◌, false, not, ◌-◌, ◌≤◌, length, take, drop, eqb, ltb};
ghost use Rattle.numbers.specs.Limits.{most_pattern_rows};
ghost use Rattle.word.specs.Lowest.{lowest, each};
ghost use Rattle.patterns.specs.Row.{pattern_fields, children_of};
ghost use Rattle.patterns.specs.Rules.{form, form_fits, row_fits, bad_pattern};
ghost use Rattle.patterns.specs.Marks.{taking, take_every};

use numbers::limits::MOST_PARTS;
use patterns::{forms, row};

// What a form uses of V, F, X, Y and R, and how many children it has.
#[derive(Clone, Copy)]
struct Form {
    v: bool,
    f: bool,
    x: bool,
    y: bool,
    r: bool,
    least: u8,
    most: u8,
}

// A form that uses nothing and has no child.
const BARE: Form = Form {
    v: false,
    f: false,
    x: false,
    y: false,
    r: false,
    least: 0,
    most: 0,
};

// Slots past the children are zero. All four are looked at: to stop early takes longer. So too below.
fn rest_zero(count: u8, slots: [u8; 4]) -> bool
    ensures { result ≡ each (eqb 0) (drop count slots) }
{
    let mut zero = true;
    for (slot, &child) in slots.iter().enumerate() {
        zero = zero & ((slot < count as usize) | (0 == child));
    }
    zero
}

// A child has a smaller number than its owner.
fn all_below(place: usize, count: u8, slots: [u8; 4]) -> bool
    ensures { result ≡ each (λ child. ltb child place) (take count slots) }
{
    let mut below = true;
    for (slot, &child) in slots.iter().enumerate() {
        below = below & ((count as usize <= slot) | ((child as usize) < place));
    }
    below
}

// A row is good in itself as a row of a form.
fn form_fits(place: usize, word: u64, uses: Form) -> bool
    ensures { result ≡ form_fits place (pattern_fields word) (form uses.v uses.f uses.x uses.y uses.r uses.least uses.most) }
{
    let n = row::count(word);
    let children = row::slots(word);
    let unused = (uses.v | (row::variable(word).0 == 0))
        & (uses.f | (row::key_form(word) == 0))
        & (uses.x | (row::byte(word) == 0))
        & (uses.y | (row::y(word).0 == 0))
        & (uses.r | (row::raw(word).0 == 0))
        & rest_zero(n, children)
        & (row::spare(word) == 0);
    let counted = (uses.least <= n) & (n <= uses.most);
    let key = !uses.f | ((row::key_form(word) <= forms::CERTIFIED_KEY) & (row::key(word).0 <= 63));
    unused & counted & key & all_below(place, n, children)
}

// A row is good in itself, by the table of the forms.
fn row_fits(place: usize, word: u64) -> bool
    ensures { result ≡ row_fits place (pattern_fields word) }
{
    let object = Form { v: true, ..BARE };
    let raw = Form { r: true, ..BARE };
    // In a key Y is used where F is 1 or 2.
    let keyed = Form {
        f: true,
        x: true,
        y: forms::OPPOSITE_KEY <= row::key_form(word),
        ..object
    };
    let sealed = Form {
        least: 1,
        most: 1,
        ..keyed
    };
    let bound = Form {
        least: 2,
        most: 2,
        ..raw
    };
    let form = row::tag(word);
    match form {
        forms::OBJECT_VARIABLE => form_fits(place, word, object),
        forms::RAW_VARIABLE => form_fits(place, word, raw),
        forms::CONSTANT => form_fits(place, word, Form { x: true, ..object }),
        forms::OPPOSITE => form_fits(place, word, Form { y: true, ..object }),
        forms::KEY_OF => form_fits(place, word, Form { y: true, ..object }),
        forms::ENCRYPTION => form_fits(place, word, sealed),
        forms::SIGNATURE => form_fits(place, word, Form { r: true, ..keyed }),
        forms::HASH => form_fits(place, word, Form { r: true, ..object }),
        forms::TUPLE => form_fits(place, word, Form { most: 4, ..object }),
        forms::LET => form_fits(place, word, bound),
        _ => false,
    }
}

// The number of children; there are four slots.
fn child_count(word: u64) -> usize
    ensures { result ≡ length (children_of word) }
{
    MOST_PARTS.min(row::count(word) as usize)
}

// Marks the children of a row; whether one was marked already.
fn take_children(marks: &mut [bool], word: u64) -> bool
    requires { length marks.old ≡ 128 }
    ensures { taking marks.new result ≡ take_every (taking marks.old false) (children_of word) }
{
    let slots = row::slots(word);
    let mut again = false;
    for &slot in &slots[..child_count(word)] {
        let child = slot as usize;
        again = again | marks[child];
        marks[child] = true;
    }
    again
}

// The lowest row but the root, the last, that is nobody's child.
fn first_unnamed(marks: [bool; 128], count: usize) -> Option<u32>
    requires { count ≤ most_pattern_rows }
    ensures { result ≡ lowest (λ place mark. not mark) (take (count - 1) marks) }
{
    let others = &marks[..count.saturating_sub(1)];
    for (place, &named) in others.iter().enumerate() {
        if !named {
            return Some(place as u32);
        }
    }
    None
}

// 4: the lowest row bad in itself or naming a child already taken, else the lowest row nobody names.
pub fn first_bad_pattern(rows: &[u64]) -> Option<u32>
    requires { length rows.now ≤ most_pattern_rows }
    ensures { result ≡ bad_pattern rows.now }
{
    let mut marks = [false; 128];
    for (place, &word) in rows.iter().enumerate() {
        let again = take_children(&mut marks, word);
        if !row_fits(place, word) | again {
            return Some(place as u32);
        }
    }
    first_unnamed(marks, rows.len())
}
