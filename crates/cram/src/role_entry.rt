// The entry for C that compiles a role.
ghost use Rattle.std.specs.Prelude.{◌≡◌};
ghost use Rattle.role_lending.specs.RoleEntry.{role_entry};

use role_lending::RoleAnswer;

// The code of all the rounds of a role.
pub fn cram_compile_role(
    rows: &[u8],
    counts: &[u8],
    kinds: &[u8],
    objects: &[u8],
    named: &[u8],
    ends: &mut [u8],
    code: &mut [u8],
) -> RoleAnswer
    ensures { record { answer = result; ends = ends.new; code = code.new }
        ≡ role_entry ends.old code.old (record {
          rows = rows.now;
          counts = counts.now;
          kinds = kinds.now;
          objects = objects.now;
          named = named.now;
        }) }
{
    role_lending::compile_role(rows, counts, kinds, objects, named, ends, code)
}
