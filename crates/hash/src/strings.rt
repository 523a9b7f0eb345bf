// The digests of strings of the three lengths that trees hash: numbers and 32-byte values by value.
ghost use Rattle.std.specs.Prelude.{◌≡◌, ◌∷◌, ◌++◌};
ghost use Rattle.hash.specs.Bytes.{big_endian};
ghost use Rattle.hash.specs.Sha256.{sha256};

use crate::bytes::buffer_of;
use crate::sha256::digest;

// A number in eight bytes, and a value.
pub fn digest_40(number: u64, value: [u8; 32]) -> [u8; 32]
    ensures { result ≡ sha256 (big_endian 8 number ++ value) }
{
    digest(&buffer_of::<40>(&[&number.to_be_bytes(), &value]))
}

// A byte, and two values.
pub fn digest_65(tag: u8, left: [u8; 32], right: [u8; 32]) -> [u8; 32]
    ensures { result ≡ sha256 (tag ∷ left ++ right) }
{
    digest(&buffer_of::<65>(&[&[tag], &left, &right]))
}

// Two values, each after a byte of its own.
pub fn digest_66(left_tag: u8, left: [u8; 32], right_tag: u8, right: [u8; 32]) -> [u8; 32]
    ensures { result ≡ sha256 (left_tag ∷ left ++ right_tag ∷ right) }
{
    digest(&buffer_of::<66>(&[&[left_tag], &left, &[right_tag], &right]))
}
