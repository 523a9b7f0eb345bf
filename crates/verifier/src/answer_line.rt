// The line that the program prints (paper 01, Sixteen numbers): `no` and the number of a refusal;
// or `yes`, the version found or `-`, the size of the log and the number of pairs in the new map.
// Each writer answers the offset after what it wrote.
// Pieces one after the other: with `write!` a cursor would be asked for the offset, no plainer.
ghost use Rattle.std.specs.Prelude.{[], ◌∷◌, ◌+◌, ◌≤◌, length};
ghost use Rattle.lines.specs.Number.{ascii, decimal};
ghost use Rattle.lines.specs.Line.{line as line_of};
ghost use Rattle.inputs.specs.StateWriter.{Wrote};
ghost use Rattle.verifier.specs.Files.{accepted_line, counts_text};

use checks::call::Found;
use lines::writing::{put_bytes, put_decimal};

// Room for every such line.
pub(crate) const LINE: usize = 128;

// The line of a refusal.
pub(crate) fn put_refusal(out: &mut [u8; LINE], number: u64) -> usize
    ensures { Wrote out.old 0 (line_of (ascii "no" ∷ decimal number ∷ [])) result
        out.new }
{
    let at = put_bytes(out, 0, b"no\t").unwrap_or(0);
    let end = put_decimal(out, at, number).unwrap_or(at);
    put_bytes(out, end, b"\n").unwrap_or(end)
}

// The line of an accepted search.
fn put_found(out: &mut [u8; LINE], version: u32, tree_size: u64, pairs: usize) -> usize
    ensures { Wrote out.old 0
        (line_of (ascii "yes" ∷ decimal version ∷ decimal tree_size ∷ decimal pairs ∷ [])) result
        out.new }
{
    let at = put_bytes(out, 0, b"yes\t").unwrap_or(0);
    let end = put_decimal(out, at, version as u64).unwrap_or(at);
    put_counts(out, end, tree_size, pairs)
}

// The line of accepted monitoring.
fn put_monitored(out: &mut [u8; LINE], tree_size: u64, pairs: usize) -> usize
    ensures { Wrote out.old 0
        (line_of (ascii "yes" ∷ ascii "-" ∷ decimal tree_size ∷ decimal pairs ∷ [])) result
        out.new }
{
    let end = put_bytes(out, 0, b"yes\t-").unwrap_or(0);
    put_counts(out, end, tree_size, pairs)
}

// The line of an acceptance, with a version or without.
pub(crate) fn put_accepted(
    out: &mut [u8; LINE],
    found: Option<Found>,
    tree_size: u64,
    pairs: usize,
) -> usize
    ensures { Wrote out.old 0 (accepted_line found tree_size pairs) result
        out.new }
{
    match found {
        Some(value) => put_found(out, value.version, tree_size, pairs),
        None => put_monitored(out, tree_size, pairs),
    }
}

// The last two fields of such a line, and its end.
fn put_counts(out: &mut [u8], at: usize, tree_size: u64, pairs: usize) -> usize
    requires { at + length (counts_text tree_size pairs) ≤ length out.old }
    ensures { Wrote out.old at (counts_text tree_size pairs) result out.new }
{
    let size_at = put_bytes(out, at, b"\t").unwrap_or(at);
    let size_end = put_decimal(out, size_at, tree_size).unwrap_or(size_at);
    let pairs_at = put_bytes(out, size_end, b"\t").unwrap_or(size_end);
    let pairs_end = put_decimal(out, pairs_at, pairs as u64).unwrap_or(pairs_at);
    put_bytes(out, pairs_end, b"\n").unwrap_or(pairs_end)
}
