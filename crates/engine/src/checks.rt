// What is looked at before the walk: compile's 1, 3, 4, 5, 6 and 7, then run's 1, 2 and 3.
ghost use Rattle.std.specs.Prelude.{◌≡◌, length};
ghost use Rattle.answers.specs.First.{first};
ghost use Rattle.knowing.specs.Known.{known};
ghost use Rattle.knowing.specs.Findings.{finding_of};
ghost use Rattle.numbers.specs.Limits.{variables, named_cells};
ghost use Rattle.calls.specs.Direct.{refused_as, store_refusals};
ghost use Rattle.engine.specs.Found.{known_looks, found_before, direct_refusals};

use answers::{Compiled, Direct};
use knowing::set_cells;
use numbers::limits::{MOST_CERTIFICATES, MOST_NAMES, MOST_TERM_ROWS};

// Compile's refusal, in the engine's words.
fn refused_as(answer: Compiled) -> Direct
    ensures { result ≡ refused_as answer }
{
    match answer {
        Compiled::Done(_) => Direct::Done,
        Compiled::Limit => Direct::Limit,
        Compiled::BadStore => Direct::BadStore,
        Compiled::BadPattern(row) => Direct::BadPattern(row),
        Compiled::WrongKind(row) => Direct::WrongKind(row),
        Compiled::WrittenWhileSet(row) => Direct::WrittenWhileSet(row),
        Compiled::ReadWhileUnset(row) => Direct::ReadWhileUnset(row),
        Compiled::CodeTooShort(_) => Direct::Done,
    }
}

// Compile's refusals, from which cells are set: cell 0 at the most significant bit.
fn look_at_pattern(
    create: bool,
    pattern: &[u64],
    kinds: &[u8],
    objects: u64,
    named: u64,
) -> Result<(), Compiled>
    ensures { result ≡ finding_of (first (known_looks create pattern.now kinds.now (known objects) (known named))) }
{
    compiler::look(create, pattern, kinds, objects)?;
    surveys::survey(create, pattern, kinds, objects, named)
}

// Run's 1, 2 and 3: a refusal, or the number of used rows.
fn look_at_stores(
    kinds: &[u8],
    objects: &[u16],
    named: &[u16],
    certificates: &[u64],
    accumulator: u32,
    terms: &[u64],
    counter: u32,
) -> Result<u16, Direct>
    ensures { result ≡ found_before (first (store_refusals (record {
      kinds = kinds.now;
      objects = objects.now;
      messages = named.now;
      certificates = certificates.now;
      accumulator = accumulator;
      terms = terms.now;
      counter = counter;
    }))) terms.now }
{
    let fits = (certificates.len() <= MOST_CERTIFICATES)
        & (terms.len() <= MOST_TERM_ROWS)
        & (counter <= MOST_NAMES);
    if !fits {
        return Err(Direct::Limit);
    }
    let count = tables::first_bad_row(terms, counter).map_err(Direct::BadTerm)?;
    let used = count as u16;
    if validity::valid(
        terms,
        used,
        kinds,
        objects,
        named,
        certificates,
        accumulator,
    ) {
        Ok(used)
    } else {
        Err(Direct::BadStore)
    }
}

// Every refusal in its order, or the number of used rows.
pub fn look(
    create: bool,
    pattern: &[u64],
    kinds: &[u8],
    objects: &[u16],
    named: &[u16],
    certificates: &[u64],
    accumulator: u32,
    terms: &[u64],
    counter: u32,
) -> Result<u16, Direct>
    requires { (length objects.now ≡ variables) × (length named.now ≡ named_cells) }
    ensures { result ≡ found_before (first (direct_refusals create pattern.now (record {
      kinds = kinds.now;
      objects = objects.now;
      messages = named.now;
      certificates = certificates.now;
      accumulator = accumulator;
      terms = terms.now;
      counter = counter;
    }))) terms.now }
{
    let set_objects = set_cells(objects);
    let set_named = set_cells(named);
    look_at_pattern(create, pattern, kinds, set_objects, set_named).map_err(refused_as)?;
    look_at_stores(
        kinds,
        objects,
        named,
        certificates,
        accumulator,
        terms,
        counter,
    )
}
