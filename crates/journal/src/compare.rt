ghost use Rattle.std.specs.Prelude.{◌≡◌, ◌↔◌, IsTrue};

use crate::note::Note;

/// Whether two journals have the same notes.
pub fn agree(a: &[Note], b: &[Note]) -> bool
    ensures { IsTrue result ↔ (a.now ≡ b.now) }
{
    a == b
}
