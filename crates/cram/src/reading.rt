// The entry for C that reads a listing back.
ghost use Rattle.std.specs.Prelude.{◌≡◌};
ghost use Rattle.read_lending.specs.ReadEntry.{read_entry};

use read_lending::ReadAnswer;

// The code words of a listing's code lines.
pub fn cram_read_listing(text: &[u8], kinds: &[u8], code: &mut [u8]) -> ReadAnswer
    ensures { record { answer = result; code = code.new } ≡ read_entry text.now kinds.now code.old }
{
    read_lending::read_listing(text, kinds, code)
}
