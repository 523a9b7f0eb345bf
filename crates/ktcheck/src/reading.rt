// Reading a file of the current folder.
ghost use Rattle.std.specs.Prelude.{IfSome};
ghost use Rattle.std.specs.Counts.{IsPrefixLen};

use std::fs;
use std::rt::Files;
use whole_input::read_full;

// Reads a file into the first bytes lent, until it ends or they are full, and gives how many were
// read. Of one that is missing, cannot be opened or fails while it is read, as a folder does, it
// gives none.
pub(crate) fn read_file(rt: &impl Files, name: &str, bytes: &mut [u8]) -> Option<usize>
    ensures { IfSome result (λ length. IsPrefixLen length bytes.new) }
{
    let mut file = fs::open(rt, name).ok()?;
    read_full(&mut file, bytes).ok()
}
