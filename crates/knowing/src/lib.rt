// What the compiler knows while it emits: which cells are set, the next scratch number, the words written, the first refusal.
#![tactic(auto)]

ghost use Rattle.std.specs.Prelude.{◌≡◌, true, false, [], ◌∷◌, ◌<◌};
ghost use Rattle.numbers.specs.Limits.{variables, scratch_cells};
ghost use Rattle.answers.specs.declared.Compiled.TheVariants.{WrongKind};
ghost use Rattle.code.specs.Instruction.{word_of};
ghost use Rattle.theory.specs.Store.{put};
ghost use Rattle.theory.specs.Machine.{Line};
ghost use Rattle.theory.specs.Emission.{ok, refuse};
ghost use Rattle.knowing.specs.Known.{known};
ghost use Rattle.knowing.specs.Steps.{read_object, write_object, read_raw, write_raw, free_raw, raise};
ghost use Rattle.knowing.specs.Meets.{refusing, Does, Quiet, RoomFor};
ghost use Rattle.knowing.specs.Findings.{finding_of};

use answers::Compiled;
pub use cells::set_cells;
use numbers::limits::{MOST_CODE_WORDS, VARIABLES};
use numbers::{Object, Raw};

mod cells;

// The sets have variable 0 at the most significant bit.
#[derive(Clone, Copy)]
pub struct Emission {
    pub objects: u64,
    pub raws: u64,
    // The next scratch number not taken.
    pub next: u64,
    // How many words are written.
    pub written: u64,
    // The first refusal.
    pub refusal: Option<Compiled>,
}

// Nothing is emitted yet: no scratch number is taken and no word written.
pub fn emission_from(objects: u64, raws: u64) -> Emission
    ensures { result ≡ record { objects = objects; raws = raws; next = 0; written = 0; refusal = None } }
{
    Emission {
        objects: objects,
        raws: raws,
        next: 0,
        written: 0,
        refusal: None,
    }
}

// Room for the longest code.
pub type Code = [u32; MOST_CODE_WORDS];

// Whether a set of 64 bits has a variable.
pub fn is_known(mask: u64, v: u8) -> bool
    ensures { result ≡ known mask v }
{
    (v as usize) < VARIABLES && (mask >> (63 - v)) % 2 == 1
}

// The set with a variable that it does not have yet.
fn with_known(mask: u64, v: u8) -> u64
    requires { (v < variables) × (known mask v ≡ false) }
    ensures { known result ≡ put (known mask) v true }
{
    mask + (1u64 << (63 - v))
}

// Whether an object variable is set.
pub fn object_known(emission: &Emission, v: Object) -> bool
    ensures { result ≡ known emission.now.objects v.0 }
{
    is_known(emission.objects, v.0)
}

// Whether a named message cell is set.
pub fn raw_known(emission: &Emission, r: Raw) -> bool
    ensures { result ≡ known emission.now.raws r.0 }
{
    is_known(emission.raws, r.0)
}

// The first refusal is the answer.
pub fn refuse(emission: &mut Emission, answer: Compiled)
    ensures { emission.new ≡ refusing answer emission.old }
{
    emission.refusal = emission.refusal.or(Some(answer));
}

// What emission is refused with.
pub fn found(emission: Emission) -> Result<(), Compiled>
    ensures { result ≡ finding_of emission.refusal }
{
    match emission.refusal {
        Some(answer) => Err(answer),
        None => Ok(()),
    }
}

pub fn read_object(emission: &mut Emission, row: u8, v: Object)
    ensures { Quiet (read_object row v.0) 0 emission.old emission.new }
{
    if !object_known(emission, v) {
        refuse(emission, Compiled::ReadWhileUnset(row as u32));
    }
}

pub fn write_object(emission: &mut Emission, row: u8, v: Object)
    requires { v.0 < variables }
    ensures { Quiet (write_object row v.0) 0 emission.old emission.new }
{
    if object_known(emission, v) {
        refuse(emission, Compiled::WrittenWhileSet(row as u32));
    } else {
        emission.objects = with_known(emission.objects, v.0);
    }
}

// A scratch cell is never looked at.
pub fn read_raw(emission: &mut Emission, row: u8, r: Raw)
    ensures { Quiet (read_raw row r.0) 0 emission.old emission.new }
{
    if (r.0 as usize) < VARIABLES {
        if !raw_known(emission, r) {
            refuse(emission, Compiled::ReadWhileUnset(row as u32));
        }
    }
}

pub fn write_raw(emission: &mut Emission, row: u8, r: Raw)
    ensures { Quiet (write_raw row r.0) 0 emission.old emission.new }
{
    if (r.0 as usize) < VARIABLES {
        if raw_known(emission, r) {
            refuse(emission, Compiled::WrittenWhileSet(row as u32));
        } else {
            emission.raws = with_known(emission.raws, r.0);
        }
    }
}

// A raw variable must be unset, and stays so.
pub fn free_raw(emission: &mut Emission, row: u8, r: Raw)
    ensures { Quiet (free_raw row r.0) 0 emission.old emission.new }
{
    if raw_known(emission, r) {
        refuse(emission, Compiled::WrittenWhileSet(row as u32));
    }
}

// A matched E has a plain key only.
pub fn wrong_kind(emission: &mut Emission, row: u8)
    ensures { Quiet (λ env. refuse (WrongKind row)) 0 emission.old emission.new }
{
    refuse(emission, Compiled::WrongKind(row as u32));
}

// The first of n scratch numbers that are taken together.
pub fn take(emission: &mut Emission, n: u8) -> u8
    requires { emission.old.next < scratch_cells }
    ensures { (result ≡ emission.old.next) × Quiet (raise n) n emission.old emission.new }
{
    let next = emission.next;
    emission.next = next + n as u64;
    next as u8
}

// The word behind those that are written.
pub fn append(code: &mut Code, emission: &mut Emission, word: u32)
    requires { RoomFor 1 0 emission.old }
    ensures { (l : Line) → word ≡ word_of l.instruction → Does (ok (l ∷ [])) 1 0 emission.old code.old emission.new code.new }
{
    let at = emission.written;
    code[at as usize] = word;
    emission.written = at + 1;
}
