// Room for what any bundle gives. Each is a call, so that no goal spells every zero.
ghost use Rattle.std.specs.Prelude.{◌≡◌, length, replicate};
ghost use Rattle.numbers.specs.Limits.{variables, message_cells, most_code_words, most_term_rows};

use numbers::limits::{MESSAGE_CELLS, MOST_CODE_WORDS, MOST_TERM_ROWS, VARIABLES};

pub fn code_room() -> [u32; MOST_CODE_WORDS]
    ensures { result ≡ replicate most_code_words 0 }
{
    [0; MOST_CODE_WORDS]
}

pub fn object_room() -> [u16; VARIABLES]
    ensures { length result ≡ variables }
{
    [0; VARIABLES]
}

pub fn message_room() -> [u16; MESSAGE_CELLS]
    ensures { length result ≡ message_cells }
{
    [0; MESSAGE_CELLS]
}

pub fn row_room() -> [u64; MOST_TERM_ROWS]
    ensures { length result ≡ most_term_rows }
{
    [0; MOST_TERM_ROWS]
}
