// A role that is compiled, and its rounds, each with its line.
use crate::lines::cells;
use crate::written::{ROOM, UNSET, certificates};
use answers::{NONE_WAITS, Session};
use numbers::limits::{MESSAGE_CELLS, VARIABLES};
use std::io;

// Each of the two roles has so many rounds, and so many words.
const ROUNDS: usize = 3;

const WORDS: usize = 37;

// A role's code, its record and its stores.
#[derive(Drop)]
pub struct Player {
    pub ends: [u16; ROUNDS],
    pub code: [u32; WORDS],
    pub session: Session,
    pub kinds: [u8; VARIABLES],
    pub objects: [u16; VARIABLES],
    pub messages: [u16; MESSAGE_CELLS],
}

// The table that both share, and the message that one sends the other.
#[derive(Drop)]
pub struct Sent {
    pub rows: [u64; ROOM],
    pub used: u32,
    pub counter: u32,
    pub message: u32,
}

// No message waits yet.
const FIRST_SESSION: Session = Session {
    used: 0,
    counter: 0,
    round: 0,
    message: NONE_WAITS,
    answer: NONE_WAITS,
};

// The halves with the rows of each; no message cell is set.
pub fn compile(
    rt: &impl Print,
    name: &str,
    halves: &[u64],
    counts: &[u8],
    kinds: [u8; VARIABLES],
    objects: [u16; VARIABLES],
) -> io::Result<Player> {
    let named = [UNSET; VARIABLES];
    let mut ends = [0; ROUNDS];
    let mut code = [0; WORDS];
    let compiled = roles::compile_role(
        halves, counts, &kinds, &objects, &named, &mut ends, &mut code,
    );
    let answer = compiled.answer;
    println!(rt;
        "{name} {} {} {}",
        answer.number(),
        answer.place(),
        compiled.half
    )?;
    Ok(Player {
        ends,
        code,
        session: FIRST_SESSION,
        kinds,
        objects,
        messages: [UNSET; MESSAGE_CELLS],
    })
}

// The player's next round, on a record that is up to date with the table and has the message, and the answer taken from it.
pub fn play(rt: &impl Print, name: &str, player: &mut Player, sent: &mut Sent) -> io::Result<()> {
    let session = Session {
        used: sent.used,
        counter: sent.counter,
        message: sent.message,
        ..player.session
    };
    let code = roles::round_part(&player.code, &player.ends, session.round as usize);
    let ended = rounds::round_of(
        session,
        ROUNDS as u32,
        &player.kinds,
        &mut player.objects,
        &mut player.messages,
        &certificates(),
        &mut sent.rows,
        code,
    );
    let taken = rounds::take_of(ended.session);
    player.session = taken.session;
    sent.used = ended.session.used;
    sent.counter = ended.session.counter;
    sent.message = taken.answer;
    let answer = ended.answer;
    print!(rt;
        "{name} {} {} {}",
        answer.number(),
        answer.place(),
        answer.reason()
    )?;
    println!(rt; " {} {} {}", sent.used, sent.counter, sent.message)
}

// The cells that are set in the end, scratch too.
pub fn left(rt: &impl Print, player: &Player) -> io::Result<()> {
    cells(rt, "o", &player.objects)?;
    cells(rt, "m", &player.messages)
}
