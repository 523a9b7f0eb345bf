// Commitments (001, 10.6 and 15.1).
ghost use Rattle.std.specs.Prelude.{◌≡◌, ◌≤◌, length};
ghost use Rattle.rules.specs.Limits.{label_limit, value_limit, opening_length};
ghost use Rattle.rules.specs.Commitment.{commitment_to};
ghost use Rattle.inputs.specs.ResponseLines.{decoded};

use hash::hmac::{finish, start};
use inputs::response_lines::Target;
use lines::writing::put_decoded;

// The key of both suites (001, 15.1).
const KEY: [u8; 16] = [
    0xd8, 0x21, 0xf8, 0x79, 0x0d, 0x97, 0x70, 0x97, 0x96, 0xb4, 0xd7, 0x90, 0x33, 0x57, 0xc3, 0xf5,
];

// The commitment to a value under a label, with an opening; value and opening are given by the
// fields that encode them.
pub(crate) fn commitment(opening: &[u8], label: &[u8], value: &[u8]) -> [u8; 32]
    requires opening { length (decoded opening.now) ≡ opening_length }
    requires label { length label.now ≤ label_limit }
    requires value { length (decoded value.now) ≤ value_limit }
    ensures { result ≡ commitment_to (decoded opening.now) label.now
        (decoded value.now) }
{
    // Buffers as long as the longest field, with a length beside: there is no heap.
    let mut opened = [0u8; Target::OPENING];
    let mut shown = [0u8; Target::VALUE];
    put_decoded(&mut opened, 0, opening);
    let length = put_decoded(&mut shown, 0, value).unwrap_or(0);
    committed(opened, label, &shown[..length])
}

// The commitment to a value, by its bytes.
fn committed(opening: [u8; Target::OPENING], label: &[u8], value: &[u8]) -> [u8; 32]
    requires label { length label.now ≤ label_limit }
    requires value { length value.now ≤ value_limit }
    ensures { result ≡ commitment_to opening label.now value.now }
{
    let head = [label.len() as u8];
    let mid = (value.len() as u32).to_be_bytes();
    let text = start(&KEY)
        .update(&opening)
        .update(&head)
        .update(label)
        .update(&mid)
        .update(value);
    finish(&KEY, text)
}
