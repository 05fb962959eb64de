// What is made is told by its word. Whoever asks has the word found in the table, or added to it.
ghost use Rattle.std.specs.Prelude.{◌≤◌, ◌<◌, length};
ghost use Rattle.numbers.specs.Limits.{most_parts};
ghost use Rattle.theory.specs.World.{byte, op, encrypt, sign, hash, tuple};
ghost use Rattle.world.specs.Operations.{MakesWord, MakesOver, NamesAt};

use answers::Reason;
use numbers::TermRow;
use numbers::kinds::{BYTE, PRIVATE_KEY, PUBLIC_KEY};
use numbers::limits::MOST_NAMES;

pub fn byte(number: u8) -> u64
    ensures { MakesWord (byte number) result }
{
    terms::atom_word(BYTE, number as u16)
}

// A created name takes the counter's number and raises it by one.
pub fn create(kind: u8, counter: u32) -> Option<(u64, u32)>
    requires { kind < 16 }
    ensures { NamesAt kind counter result }
{
    if MOST_NAMES <= counter {
        return None;
    }
    Some((terms::atom_word(kind, counter as u16), counter + 1))
}

// The opposite of private key i is public key i.
pub fn opposite(rows: &[u64], key: TermRow) -> Result<u64, Reason>
    ensures { MakesOver rows.now (op key.0) result }
{
    let known = terms::row_at(rows, key);
    if terms::tag(known) != PRIVATE_KEY {
        return Err(Reason::OtherKind);
    }
    Ok(terms::atom_word(PUBLIC_KEY, terms::number(known)))
}

pub fn encrypt(key: TermRow, body: TermRow) -> u64
    ensures { MakesWord (encrypt key.0 body.0) result }
{
    terms::encrypted_word(key, body)
}

pub fn sign(key: TermRow, body: TermRow) -> u64
    ensures { MakesWord (sign key.0 body.0) result }
{
    terms::signed_word(key, body)
}

pub fn hash(body: TermRow) -> u64
    ensures { MakesWord (hash body.0) result }
{
    terms::hashed_word(body)
}

// The tuple of some rows.
pub fn tuple(rows: &[u16]) -> u64
    requires { length rows.now ≤ most_parts }
    ensures { MakesWord (tuple rows.now) result }
{
    terms::tuple_word(rows)
}
