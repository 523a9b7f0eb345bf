// Writing into lent bytes from an offset on: all other bytes stay, and what does not fit is not
// written at all. Each answer is the offset after what was put, or none where nothing was. Bytes and
// offset are two arguments: a struct of both would hold the `&mut` borrow of the bytes across calls.
ghost use Rattle.std.specs.Prelude.{◌≡◌, ◌+◌, ◌*◌, ◌≤◌, ◌<◌, leb, length};
ghost use Rattle.std.proofs.Math.Option.{some};
ghost use Rattle.lists.specs.Choice.{option_of, provided};
ghost use Rattle.lists.specs.Lists.{written};
ghost use Rattle.lines.specs.Number.{decimal};
ghost use Rattle.lines.specs.Hex.{unhex, read_hex, hex_digit, hex, hex_field};
ghost use Rattle.lines.specs.Writing.{offset_after, put_at, offset_after_any, put_any};

use crate::hex::{decoded_length, digit_value};

// How many digits the greatest number of 64 bits has.
const DECIMAL_DIGITS: usize = 20;

// Bytes as they are.
pub fn put_bytes(out: &mut [u8], at: usize, s: &[u8]) -> Option<usize>
    ensures offset { option_of result ≡ offset_after out.old at s.now }
    ensures bytes { out.new ≡ put_at out.old at s.now }
{
    let end = end_within(out.len(), at, s.len())?;
    store_bytes(out, at, s);
    Some(end)
}

// A number in decimal digits. By hand: the contract of `write!` does not say that it succeeds, as `offset` must.
#[tactic(auto, using(crate::proofs::WritingLaws::decimal_rules))]
pub fn put_decimal(out: &mut [u8], at: usize, n: u64) -> Option<usize>
    ensures offset { option_of result ≡ offset_after out.old at (decimal n) }
    ensures bytes { out.new ≡ put_at out.old at (decimal n) }
{
    let mut digits = [0u8; DECIMAL_DIGITS];
    let mut first: usize = DECIMAL_DIGITS - 1;
    let mut rest: u64 = n;
    while 10 <= rest {
        digits[first] = b'0' + (rest % 10) as u8;
        rest = rest / 10;
        first -= 1;
    }
    digits[first] = b'0' + rest as u8;
    put_bytes(out, at, &digits[first..])
}

// A byte string as the field that encodes it.
pub fn put_hex(out: &mut [u8], at: usize, s: &[u8]) -> Option<usize>
    ensures offset { option_of result ≡ offset_after out.old at (hex_field s.now) }
    ensures bytes { out.new ≡ put_at out.old at (hex_field s.now) }
{
    if s.is_empty() {
        return put_bytes(out, at, b"-");
    }
    let end = end_within(out.len(), at, 2 * s.len())?;
    store_hex(out, at, s);
    Some(end)
}

// The byte string that a field encodes; nothing where it encodes none.
pub fn put_decoded(out: &mut [u8], at: usize, field: &[u8]) -> Option<usize>
    ensures offset { option_of result ≡ offset_after_any out.old at (read_hex field.now) }
    ensures bytes { out.new ≡ put_any out.old at (read_hex field.now) }
{
    let count = decoded_length(field)?;
    let end = end_within(out.len(), at, count)?;
    store_decoded(out, at, field);
    Some(end)
}

// The offset after so many bytes, if they fit into a room from an offset on.
#[tactic(auto, using(crate::proofs::WritingLaws::room))]
fn end_within(room: usize, at: usize, count: usize) -> Option<usize>
    ensures { option_of result ≡ provided (leb (at + count) room) (at + count) }
{
    let end = at.checked_add(count)?;
    if room < end {
        return None;
    }
    Some(end)
}

// Bytes as they are, where they fit. By hand: with `copy_from_slice` the C library would need
// `memmove` from outside.
#[tactic(auto, using(crate::proofs::WritingLaws::store_rules))]
fn store_bytes(out: &mut [u8], at: usize, s: &[u8])
    requires { at + length s.now ≤ length out.old }
    ensures { out.new ≡ written out.old at s.now }
{
    for (i, b) in s.iter().enumerate() {
        out[at + i] = *b;
    }
}

// The hex digits of bytes, where they fit. By index: no clause of `as_chunks_mut` says what the slice ends as.
#[tactic(auto, using(crate::proofs::WritingLaws::store_rules))]
fn store_hex(out: &mut [u8], at: usize, s: &[u8])
    requires { at + 2 * length s.now ≤ length out.old }
    ensures { out.new ≡ written out.old at (hex s.now) }
{
    for (i, b) in s.iter().enumerate() {
        out[at + 2 * i] = hex_digit(*b / 16);
        out[at + 2 * i + 1] = hex_digit(*b % 16);
    }
}

// The digit of a value.
#[tactic(auto, using(crate::proofs::HexLaws::digit_rules))]
fn hex_digit(d: u8) -> u8
    requires { d < 16 }
    ensures { result ≡ hex_digit d }
{
    if d < 10 { b'0' + d } else { b'a' + (d - 10) }
}

// The bytes that a field encodes, where they fit.
#[tactic(auto, using(crate::proofs::WritingLaws::store_rules))]
fn store_decoded(out: &mut [u8], at: usize, field: &[u8])
    requires decodes { read_hex field.now ≡ some (unhex field.now) }
    requires room { at + length (unhex field.now) ≤ length out.old }
    ensures { out.new ≡ written out.old at (unhex field.now) }
{
    let (pairs, _) = field.as_chunks::<2>();
    for (i, [high, low]) in pairs.iter().enumerate() {
        out[at + i] = digit_value(*high) * 16 + digit_value(*low);
    }
}
