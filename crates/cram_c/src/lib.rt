// The entries for C, each over the function of `cram` of the same name. The header is host/include/cram.h.
#![tactic(auto)]

ghost use Rattle.std.specs.Prelude.{◌≡◌};
ghost use Rattle.lending.specs.Entries.{compile_entry, run_entry};
ghost use Rattle.lending.specs.RoundEntry.{round_entry, take_entry};
ghost use Rattle.role_lending.specs.RoleEntry.{role_entry};
ghost use Rattle.read_lending.specs.ReadEntry.{read_entry};

use cram::{reading, role_entry, session as sessions};
use lending::{CompileAnswer, RoundAnswer, RunAnswer, TakeAnswer};
use read_lending::ReadAnswer;
use role_lending::RoleAnswer;

// The code of a pattern; create is 0 for matching, 1 for creating.
#[unsafe(no_mangle)]
pub extern "C" fn cram_compile(
    create: u8,
    pattern: &[u8],
    kinds: &[u8],
    objects: &[u8],
    named: &[u8],
    code: &mut [u8],
) -> CompileAnswer
    ensures { record { answer = result; code = code.new }
        ≡ compile_entry create pattern.now kinds.now objects.now named.now code.old }
{
    cram::cram_compile(create, pattern, kinds, objects, named, code)
}

// Code over stores and a table of terms.
#[unsafe(no_mangle)]
pub extern "C" fn cram_run(
    kinds: &[u8],
    objects: &mut [u8],
    messages: &mut [u8],
    certificates: &[u8],
    accumulator: u32,
    terms: &mut [u8],
    counter: u32,
    code: &[u8],
) -> RunAnswer
    ensures { record { answer = result; objects = objects.new; messages = messages.new; terms = terms.new }
        ≡ run_entry (record {
          kinds = kinds.now;
          objects = objects.old;
          messages = messages.old;
          certificates = certificates.now;
          accumulator = accumulator;
          terms = terms.old;
          counter = counter;
        }) code.now }
{
    cram::cram_run(
        kinds,
        objects,
        messages,
        certificates,
        accumulator,
        terms,
        counter,
        code,
    )
}

// The code of all the rounds of a role.
#[unsafe(no_mangle)]
pub extern "C" fn cram_compile_role(
    rows: &[u8],
    counts: &[u8],
    kinds: &[u8],
    objects: &[u8],
    named: &[u8],
    ends: &mut [u8],
    code: &mut [u8],
) -> RoleAnswer
    ensures { record { answer = result; ends = ends.new; code = code.new }
        ≡ role_entry ends.old code.old (record {
          rows = rows.now;
          counts = counts.now;
          kinds = kinds.now;
          objects = objects.now;
          named = named.now;
        }) }
{
    role_entry::cram_compile_role(rows, counts, kinds, objects, named, ends, code)
}

// A round's code over a session record, stores and a table of terms.
#[unsafe(no_mangle)]
pub extern "C" fn cram_round(
    session: &mut [u8],
    rounds: u32,
    kinds: &[u8],
    objects: &mut [u8],
    messages: &mut [u8],
    certificates: &[u8],
    terms: &mut [u8],
    code: &[u8],
) -> RoundAnswer
    ensures { record { answer = result; session = session.new; objects = objects.new; messages = messages.new; terms = terms.new }
        ≡ round_entry (record {
          session = session.old;
          rounds = rounds;
          kinds = kinds.now;
          objects = objects.old;
          messages = messages.old;
          certificates = certificates.now;
          terms = terms.old;
        }) code.now }
{
    sessions::cram_round(
        session,
        rounds,
        kinds,
        objects,
        messages,
        certificates,
        terms,
        code,
    )
}

// The answer that waits; 1 is a record of another length.
#[unsafe(no_mangle)]
pub extern "C" fn cram_take(session: &mut [u8]) -> TakeAnswer
    ensures { record { answer = result; session = session.new } ≡ take_entry session.old }
{
    sessions::cram_take(session)
}

// The code words of a listing's code lines.
#[unsafe(no_mangle)]
pub extern "C" fn cram_read_listing(text: &[u8], kinds: &[u8], code: &mut [u8]) -> ReadAnswer
    ensures { record { answer = result; code = code.new } ≡ read_entry text.now kinds.now code.old }
{
    reading::cram_read_listing(text, kinds, code)
}
