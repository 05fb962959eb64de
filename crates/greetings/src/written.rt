// The two roles as they are written.
use crate::player::Sent;
use numbers::kinds::{AGENT, BYTE, ENCRYPTION, NONCE, PRIVATE_KEY, PUBLIC_KEY, TUPLE};
use numbers::limits::VARIABLES;

// The table's rows.
pub const ROOM: usize = 14;

// A cell with no row.
pub const UNSET: u16 = 65535;

// Agents 1 and 2, and the keys of each, private and public; room for eight more.
fn terms() -> [u64; ROOM] {
    [
        0x3000_0000_0000_0001,
        0x3000_0000_0000_0002,
        0x5000_0000_0000_0000,
        0x4000_0000_0000_0000,
        0x5000_0000_0000_0001,
        0x4000_0000_0000_0001,
        0,
        0,
        0,
        0,
        0,
        0,
        0,
        0,
    ]
}

// The initiator is told to greet agent 2.
pub fn start() -> Sent {
    Sent {
        rows: terms(),
        used: 6,
        counter: 2,
        message: 1,
    }
}

// An agent's row and its public key's.
pub fn certificates() -> [u64; 2] {
    [0x0000_0300_0000_0000, 0x0010_0500_0000_0000]
}

// Pattern rows of all halves, half after half.
pub const HALF_ROWS: usize = 13;

pub fn initiator_halves() -> [u64; HALF_ROWS] {
    [
        // a2
        0x0080_0000_0000_0000,
        // e5:E(k4:keyOf(a2), t6:[a0, n3])
        0x0000_0000_0000_0000,
        0x00C0_0000_0000_0000,
        0x8180_0000_4000_8000,
        0x5160_4080_2080_0000,
        // e7:E(K1, t8:[n3, n9])
        0x00C0_0000_0000_0000,
        0x0240_0000_0000_0000,
        0x8200_0000_4000_8000,
        0x51C0_1000_2080_0000,
        // e10:E(k4, n9)
        0x0240_0000_0000_0000,
        0x5280_4000_2000_0000,
        // c11:1
        0x22C0_1000_0000_0000,
        // a0
        0x0000_0000_0000_0000,
    ]
}

pub fn responder_halves() -> [u64; HALF_ROWS] {
    [
        // e0:E(K1, t2:[a3, n4])
        0x00C0_0000_0000_0000,
        0x0100_0000_0000_0000,
        0x8080_0000_4000_8000,
        0x5000_1000_2080_0000,
        // e5:E(k6:keyOf(a3), t7:[n4, n8])
        0x0100_0000_0000_0000,
        0x0200_0000_0000_0000,
        0x81C0_0000_4000_8000,
        0x5160_60C0_2080_0000,
        // e9:E(K1, n8)
        0x0200_0000_0000_0000,
        0x5240_1000_2000_0000,
        // c10:1
        0x2280_1000_0000_0000,
        // a3
        0x00C0_0000_0000_0000,
        // c10
        0x0280_0000_0000_0000,
    ]
}

// The initiator has a0, K1, a2, n3, k4, e5, t6, e7, t8, n9, e10, c11.
pub fn initiator() -> [u8; VARIABLES] {
    let mut kinds = [0; VARIABLES];
    kinds[..12].copy_from_slice(&[
        AGENT,
        PRIVATE_KEY,
        AGENT,
        NONCE,
        PUBLIC_KEY,
        ENCRYPTION,
        TUPLE,
        ENCRYPTION,
        TUPLE,
        NONCE,
        ENCRYPTION,
        BYTE,
    ]);
    kinds
}

// It knows its name and its private key.
pub fn initiator_cells() -> [u16; VARIABLES] {
    let mut cells = [UNSET; VARIABLES];
    cells[0] = 0;
    cells[1] = 2;
    cells
}

// The responder has e0, K1, t2, a3, n4, e5, k6, t7, n8, e9, c10.
pub fn responder() -> [u8; VARIABLES] {
    let mut kinds = [0; VARIABLES];
    kinds[..11].copy_from_slice(&[
        ENCRYPTION,
        PRIVATE_KEY,
        TUPLE,
        AGENT,
        NONCE,
        ENCRYPTION,
        PUBLIC_KEY,
        TUPLE,
        NONCE,
        ENCRYPTION,
        BYTE,
    ]);
    kinds
}

// It knows its private key.
pub fn responder_cells() -> [u16; VARIABLES] {
    let mut cells = [UNSET; VARIABLES];
    cells[1] = 4;
    cells
}
