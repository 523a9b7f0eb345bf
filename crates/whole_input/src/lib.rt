// Reading an input whole, as far as there is room.
#![tactic(auto)]

ghost use Rattle.std.specs.Prelude.{◌<◌, length, take, IfOk, OnOk};
ghost use Rattle.std.specs.Counts.{IsPrefixLen};
ghost use Rattle.std.specs.Io.KnownBytes.{Consumes, IsAtEnd};
ghost use Rattle.whole_input.specs.Count.{count};

use std::io::Read;

// Reads into the first bytes lent, until they are full or the input ends, and gives how many were
// read; where a read fails, how many were read before it.
pub fn read_full<R: Read>(input: &mut R, bytes: &mut [u8]) -> Result<usize, usize>
    ensures length { IsPrefixLen (count result) bytes.new }
    ensures bytes { Consumes (R.remaining input.old) (R.remaining input.new) (take (count result) bytes.new) }
    ensures end { OnOk result (count result < length bytes.new → IsAtEnd (R.remaining input.new)) }
{
    let mut done: usize = 0;
    // A loop: std's reads to the end say too little of one that fails.
    while done < bytes.len() {
        match input.read(&mut bytes[done..]) {
            Ok(0) => break,
            Ok(more) => done += more,
            Err(_) => return Err(done),
        }
    }
    Ok(done)
}
