// What a match does after another step of it. A walk that has ended stays so.
ghost use Rattle.std.specs.Prelude.{ℕ, ◌<◌};
ghost use Rattle.numbers.specs.Limits.{named_cells};
ghost use Rattle.theory.specs.World.{key_of, decrypt, hash};
ghost use Rattle.theory.specs.RowModel.{row_world};
ghost use Rattle.theory.specs.Rules.{equals};
ghost use Rattle.machine.specs.Machine.{with_objects, with_messages, with_term_rows, with_certificates};
ghost use Rattle.walks.specs.Walks.{stores_alone, message_and_stores};
ghost use Rattle.leaf_matching.specs.Stages.{GoesOnBy, Inside, asked, verifies};

use machine::cells::{message_at, object_at, set_row};
use numbers::{Object, Raw, TermRow};
use walks::making::make;
use walks::{Walked, asked_at};

// What came into hand has to be the message.
pub fn same_as(came: Walked, row: u8, message: TermRow) -> Walked
    ensures { (kind : ℕ → ℕ) → GoesOnBy stores_alone (λ m. equals row_world kind row m.0 message.0 m.1) came (λ x. x) result (λ x. x) }
{
    let walk = came?;
    asked_at(row, world::same(walk.message, message))?;
    Ok(walk)
}

// What came into hand has to verify a signature of r.
pub fn verified(
    terms: &[u64],
    named: &[u16],
    came: Walked,
    row: u8,
    r: Raw,
    signature: TermRow,
) -> Walked
    requires { r.0 < named_cells }
    ensures { GoesOnBy stores_alone
        (verifies row r.0 signature.0) came
        (λ x. with_term_rows (with_messages x named.now) terms.now) result
        (λ x. with_term_rows (with_messages x named.now) terms.now) }
{
    let walk = came?;
    let body = asked_at(row, set_row(message_at(named, r)))?;
    asked_at(row, world::verify(terms, walk.message, body, signature))?;
    Ok(walk)
}

// The key of an agent's certificate comes into hand.
pub fn agent_key(
    certificates: &[u64],
    objects: &[u16],
    came: Walked,
    row: u8,
    agent: Object,
) -> Walked
    ensures { GoesOnBy message_and_stores
        (λ m. asked row (λ n. n.σ agent.0) (λ a. key_of a) m.1) came
        (λ x. with_certificates (with_objects x objects.now) certificates.now) result
        (λ x. with_certificates (with_objects x objects.now) certificates.now) }
{
    let walk = came?;
    let whose = asked_at(row, set_row(object_at(objects, agent)))?;
    let key = asked_at(row, world::key_of(certificates, whose))?;
    Ok(walk.meeting(key))
}

// The body of the encryption in hand comes into hand, where the key opens it.
pub fn opened_by(terms: &[u64], objects: &[u16], came: Walked, row: u8, key: Object) -> Walked
    ensures { GoesOnBy message_and_stores
        (λ m. asked row (λ n. n.σ key.0) (λ k. decrypt k m.0) m.1) came
        (λ x. with_term_rows (with_objects x objects.now) terms.now) result
        (λ x. with_term_rows (with_objects x objects.now) terms.now) }
{
    let walk = came?;
    let known = asked_at(row, set_row(object_at(objects, key)))?;
    let body = asked_at(row, world::decrypt(terms, known, walk.message))?;
    Ok(walk.meeting(body))
}

// The hash of what r holds comes into hand.
pub fn hashed(terms: &mut [u64], named: &[u16], came: Walked, row: u8, r: Raw) -> Walked
    requires r_lt_named_cells { r.0 < named_cells }
    requires inside { Inside terms.old came }
    ensures { GoesOnBy message_and_stores
        (λ m. asked row (λ n. n.ρ r.0) (λ b. hash b) m.1) came
        (λ x. with_term_rows (with_messages x named.now) terms.old) result
        (λ x. with_term_rows (with_messages x named.now) terms.new) }
{
    let walk = came?;
    let body = asked_at(row, set_row(message_at(named, r)))?;
    make(terms, walk, row, world::hash(body))
}
