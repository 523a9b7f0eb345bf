// Byte strings in lower-case hex (paper 01, Response lines).
ghost use Rattle.std.specs.Prelude.{◌≡◌, true, ◌<◌};
ghost use Rattle.lists.specs.Choice.{option_of};
ghost use Rattle.hash.specs.Sha256.{digest_length};
ghost use Rattle.lines.specs.Hex.{is_hex_digit, digit_value, decoded_length};
ghost use Rattle.lines.specs.Field.{exactly, read_field};

use crate::layout::Layout;

// The length of the byte string that a field encodes: hex digits in pairs, or `-` for the empty
// string.
#[tactic(auto, using(crate::proofs::HexLengthLaws::length_rules))]
pub fn decoded_length(s: &[u8]) -> Option<usize>
    ensures { option_of result ≡ decoded_length s.now }
{
    if s == b"-".as_slice() {
        return Some(0);
    }
    if s.is_empty() {
        return None;
    }
    if s.len() % 2 != 0 {
        return None;
    }
    if !s.iter().all(|b| is_hex_digit(*b)) {
        return None;
    }
    Some(s.len() / 2)
}

// The value of 32 bytes that s encodes, if it is exactly the digits of one. It is filled by index, since
// no clause of `iter_mut().zip(..)` says what the elements end as.
#[tactic(auto, using(crate::proofs::ReadingLaws::digest_rules))]
pub fn read_digest(s: &[u8]) -> Option<[u8; 32]>
    ensures { option_of result ≡ read_field (exactly digest_length) s.now }
{
    if s.len() != Layout::DIGITS {
        return None;
    }
    let mut value = [0u8; 32];
    let (pairs, _) = s.as_chunks::<2>();
    for (i, [high, low]) in pairs.iter().enumerate() {
        if !is_hex_digit(*high) {
            return None;
        }
        if !is_hex_digit(*low) {
            return None;
        }
        value[i] = digit_value(*high) * 16 + digit_value(*low);
    }
    Some(value)
}

// Whether a byte is a digit.
#[tactic(auto, using(crate::proofs::HexLaws::digit_rules))]
fn is_hex_digit(b: u8) -> bool
    ensures { result ≡ is_hex_digit b }
{
    matches!(b, b'0'..=b'9' | b'a'..=b'f')
}

// The value of a digit.
#[tactic(auto, using(crate::proofs::HexLaws::digit_rules))]
pub(crate) fn digit_value(b: u8) -> u8
    requires { is_hex_digit b ≡ true }
    ensures { (result ≡ digit_value b) × (result < 16) }
{
    if b <= b'9' { b - b'0' } else { b - b'a' + 10 }
}
