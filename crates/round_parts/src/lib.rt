// The part of a role's code that is a round's.
#![tactic(auto)]

ghost use Rattle.std.specs.Prelude.{◌≡◌, ◌+◌, ◌*◌, ◌<◌, length};
ghost use Rattle.calls.specs.Role.{round_start, round_part, round_place};

// Where a round starts.
fn start_of(ends: &[u16], round: usize) -> usize
    requires { round < length ends.now }
    ensures { result ≡ round_start ends.now round }
{
    if round == 0 {
        return 0;
    }
    ends[round - 1] as usize
}

// A round's own words, or an empty part where there is no such round. They are lent to be read: no word of the slice changes.
pub fn round_part<'a>(code: &'a [u32], ends: &[u16], round: usize) -> &'a [u32]
    ensures { (result.now ≡ round_part code.now ends.now round)
        × (result.ref_ptr ≡ (code.entry.ref_ptr.0, round_place code.now ends.now round * 4 + code.entry.ref_ptr.1)) }
{
    if ends.len() <= round {
        return &code[..0];
    }
    let start = start_of(ends, round);
    let end = ends[round] as usize;
    if (start <= end) & (end <= code.len()) {
        &code[start..end]
    } else {
        &code[..0]
    }
}
