// The steps between INPUT and OUTPUT, on copies of the cells.
ghost use Rattle.std.specs.Prelude.{◌≡◌};
ghost use Rattle.calls.specs.Round.{round};
ghost use Rattle.turns.specs.Found.{GoesOn};

use crate::RoundEnded;
use answers::{Ran, Rounded, Session};
use execution::Stepped;
use machine::Registers;
use numbers::TermRow;
use running::cells::copied;
use stores::cells::Cells;
use turns::{in_round, session_after};

// The steps of a round that nothing refuses: the cells are copied back where they are done.
pub fn play(
    session: Session,
    rounds: u32,
    used: u16,
    kinds: &[u8],
    objects: &mut [u16],
    messages: &mut [u16],
    certificates: &[u64],
    terms: &mut [u64],
    code: &[u32],
) -> RoundEnded
    requires { GoesOn (record {
      session = session;
      rounds = rounds;
      kinds = kinds.now;
      objects = objects.old;
      messages = messages.old;
      certificates = certificates.now;
      terms = terms.old;
    }) code.now used }
    ensures { record { answer = result.answer; session = result.session; objects = objects.new; messages = messages.new; terms = terms.new }
        ≡ round (record {
          session = session;
          rounds = rounds;
          kinds = kinds.now;
          objects = objects.old;
          messages = messages.old;
          certificates = certificates.now;
          terms = terms.old;
        }) code.now }
{
    let start = Registers {
        place: 0,
        accumulator: TermRow(session.message as u16),
        used,
        counter: session.counter,
    };
    let mut cells = Cells {
        objects: copied(objects),
        messages: copied(messages),
    };
    let output = code.len() - 1;
    let Stepped {
        answer: ran,
        registers,
    } = execution::steps(
        start,
        kinds,
        &mut cells,
        certificates,
        terms,
        &code[1..output],
    );
    let answer = Rounded::Ran(in_round(ran));
    let Ran::Done(_) = ran else {
        return RoundEnded { session, answer };
    };
    objects.copy_from_slice(&cells.objects);
    messages.copy_from_slice(&cells.messages);
    RoundEnded {
        session: session_after(session, registers),
        answer,
    }
}
