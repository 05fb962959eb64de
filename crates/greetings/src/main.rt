// Two roles over one table play the three messages of Needham and Schroeder to the end, a line a call: of a compile the answer's number
// and place, and the half; of a round number, place and reason, the table's used rows and counter, and the answer that is taken. Then a
// line for each cell that is set and each row of the table.
#![tactic(auto)]

mod lines;
mod player;
mod written;

use lines::rows;
use player::{Player, Sent, compile, left, play};
use std::io;

fn initiator(rt: &impl Print) -> io::Result<Player> {
    compile(
        rt,
        "a",
        &written::initiator_halves(),
        &[1, 4, 4, 2, 1, 1],
        written::initiator(),
        written::initiator_cells(),
    )
}

fn responder(rt: &impl Print) -> io::Result<Player> {
    compile(
        rt,
        "b",
        &written::responder_halves(),
        &[4, 4, 2, 1, 1, 1],
        written::responder(),
        written::responder_cells(),
    )
}

// A greets B with A and a nonce, B answers with that nonce and its own, and A with B's.
fn greet(rt: &impl Print, a: &mut Player, b: &mut Player, sent: &mut Sent) -> io::Result<()> {
    play(rt, "a greets", a, sent)?;
    play(rt, "b answers", b, sent)?;
    play(rt, "a answers", a, sent)?;
    play(rt, "b is greeted", b, sent)?;
    play(rt, "a ends", a, sent)?;
    left(rt, a)?;
    play(rt, "b ends", b, sent)?;
    left(rt, b)
}

// A round that there is not has no code, and that is 1.
fn main(rt: HostRuntime) -> io::Result<()> {
    let mut a = initiator(&rt)?;
    let mut b = responder(&rt)?;
    let mut sent = written::start();
    greet(&rt, &mut a, &mut b, &mut sent)?;
    play(&rt, "no round left", &mut b, &mut sent)?;
    rows(&rt, &sent.rows)
}
