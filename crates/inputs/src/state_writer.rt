// A state's text, written (paper 01, What a call is given): a `size` line, a `keep` line for each
// value, a `pair` line for each pair of the map. Each writer below write_state is given room for
// its text, and answers the offset after it.
ghost use Rattle.std.specs.Prelude.{◌≡◌, true, ◌+◌, ◌/◌, ◌%◌, ◌≤◌, length};
ghost use mathlib.Core.List.{[], ◌∷◌, ◌++◌, flat_map};
ghost use Rattle.std.proofs.Math.Option.{get_or};
ghost use Rattle.lists.specs.Choice.{is_some};
ghost use Rattle.lists.specs.Lists.{runs};
ghost use Rattle.lines.specs.Number.{decimal};
ghost use Rattle.lines.specs.Hex.{hex_field};
ghost use Rattle.lines.specs.Line.{tab, write_line};
ghost use Rattle.rules.specs.Limits.{hash_length, state_text_limit};
ghost use Rattle.rules.specs.StateText.{size_form, write_keep, write_pair, write_state};
ghost use Rattle.rules.specs.Refusals.{valid_state};
ghost use Rattle.rules.specs.Calls.{written_first};
ghost use Rattle.inputs.specs.State.{map_of, contents, state_of};
ghost use Rattle.inputs.specs.StateWriter.{text_for, Wrote};

use crate::state::State;
use lines::layout::Word;
use lines::writing::{put_bytes, put_decimal, put_hex};

// The bytes of a value.
const VALUE: usize = 32;

// Writes the text of a state to the first bytes lent and answers its length. Of a state that is not
// valid, or with fewer than State::TEXT bytes lent, it answers 0 and writes nothing.
// 0 for no text: clause answer is the text's length.
pub fn write_state(state: State, lent: &mut [u8]) -> usize
    ensures answer { result ≡ length (get_or (text_for state lent.old) []) }
    ensures bytes { lent.new
        ≡ written_first lent.old (text_for state lent.old) }
{
    if lent.len() < State::TEXT {
        return 0;
    }
    if !state.is_valid() {
        return 0;
    }
    put_state(lent, state)
}

// The text of a valid state, from byte 0 on.
fn put_state(out: &mut [u8], state: State) -> usize
    requires valid { is_some (valid_state (state_of state)) ≡ true }
    requires room { state_text_limit ≤ length out.old }
    ensures { Wrote out.old 0 (write_state (contents state)) result out.new }
{
    let State { label, log, map } = state;
    let count = u64::count_ones(log.size) as usize;
    let keeps_at = put_size(
        out,
        0,
        log.size,
        log.timestamp,
        &label.bytes[..label.length],
    );
    let pairs_at = put_keeps(out, keeps_at, &log.values[..VALUE * count]);
    put_pairs(
        out,
        pairs_at,
        &map.positions[..map.count],
        &map.versions[..map.count],
    )
}

// The `size` line.
fn put_size(out: &mut [u8], at: usize, size: u64, timestamp: u64, label: &[u8]) -> usize
    requires { at + length (write_line size_form (size, (timestamp, (label.now, tt)))) ≤ length out.old }
    ensures { Wrote out.old at
        (write_line size_form (size, (timestamp, (label.now, tt)))) result out.new }
{
    let label_at = put_numbers(out, at, &Word::SIZE, size, timestamp);
    let end = put_field(out, label_at, label);
    put_all(out, end, b"\n")
}

// The `keep` lines of values that stand one after the other.
fn put_keeps(out: &mut [u8], at: usize, values: &[u8]) -> usize
    requires whole { length values.now % hash_length ≡ 0 }
    requires room { at
        + length (flat_map write_keep (runs (length values.now / hash_length) hash_length values.now)) ≤ length out.old }
    ensures { Wrote out.old at
        (flat_map write_keep (runs (length values.now / hash_length) hash_length values.now)) result out.new }
{
    let mut offset = at;
    for value in values.chunks_exact(VALUE) {
        offset = put_keep(out, offset, value);
    }
    offset
}

// The `keep` line of a value.
fn put_keep(out: &mut [u8], at: usize, value: &[u8]) -> usize
    requires { at + length (write_keep value.now) ≤ length out.old }
    ensures { Wrote out.old at (write_keep value.now) result out.new }
{
    let value_at = put_all(out, at, &Word::KEEP);
    let end = put_field(out, value_at, value);
    put_all(out, end, b"\n")
}

// The `pair` lines of the pairs that have these positions and these versions.
fn put_pairs(out: &mut [u8], at: usize, positions: &[u64], versions: &[u32]) -> usize
    requires pairs { length versions.now ≡ length positions.now }
    requires room { at
        + length (flat_map write_pair (map_of positions.now versions.now)) ≤ length out.old }
    ensures { Wrote out.old at
        (flat_map write_pair (map_of positions.now versions.now)) result out.new }
{
    let mut offset = at;
    for (&position, &version) in positions.iter().zip(versions) {
        offset = put_pair(out, offset, position, version);
    }
    offset
}

// The `pair` line of a pair.
fn put_pair(out: &mut [u8], at: usize, position: u64, version: u32) -> usize
    requires { at + length (write_pair (record { position = position; version = version })) ≤ length
        out.old }
    ensures { Wrote out.old at
        (write_pair (record { position = position; version = version })) result out.new }
{
    let end = put_numbers(out, at, &Word::PAIR, position, version as u64);
    put_all(out, end, b"\n")
}

// A word, and two numbers as fields.
fn put_numbers(out: &mut [u8], at: usize, word: &[u8], first: u64, second: u64) -> usize
    requires { at + length (word.now ++ (tab ∷ decimal first) ++ (tab ∷ decimal second)) ≤ length
        out.old }
    ensures { Wrote out.old at
        (word.now ++ (tab ∷ decimal first) ++ (tab ∷ decimal second)) result out.new }
{
    let first_at = put_all(out, at, word);
    let second_at = put_number(out, first_at, first);
    put_number(out, second_at, second)
}

// A number as a field, after its tab.
fn put_number(out: &mut [u8], at: usize, n: u64) -> usize
    requires { at + length (tab ∷ decimal n) ≤ length out.old }
    ensures { Wrote out.old at (tab ∷ decimal n) result out.new }
{
    let offset = put_all(out, at, b"\t");
    put_decimal(out, offset, n).unwrap_or(offset)
}

// A byte string as a field, after its tab.
fn put_field(out: &mut [u8], at: usize, s: &[u8]) -> usize
    requires { at + length (tab ∷ hex_field s.now) ≤ length out.old }
    ensures { Wrote out.old at (tab ∷ hex_field s.now) result out.new }
{
    let offset = put_all(out, at, b"\t");
    put_hex(out, offset, s).unwrap_or(offset)
}

// Bytes as they are.
fn put_all(out: &mut [u8], at: usize, s: &[u8]) -> usize
    requires { at + length s.now ≤ length out.old }
    ensures { Wrote out.old at s.now result out.new }
{
    put_bytes(out, at, s).unwrap_or(at)
}
