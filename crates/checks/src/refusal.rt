// A refusal without names.
#![tactic(auto)]

ghost use Rattle.std.specs.Prelude.{◌≡◌, length, replicate, pos, Err};
ghost use Rattle.memory.specs.Seen.{SameSlice};

use memory::Tables;

// Refuses with `error`, whatever the call answers: names and memory are cleared.
pub fn refuse<T, E>(names: &mut [u32], tables: &mut Tables, error: E) -> Result<T, E>
    ensures { (result ≡ Err error) × (names.new ≡ replicate (length names.old) 0) × (tables.new.cells.now ≡ replicate (length tables.old.cells.now) (pos 0)) × SameSlice tables.old tables.new }
{
    names.fill(0);
    tables.clear();
    Err(error)
}
