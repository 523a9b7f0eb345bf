// What the lookups of a response are tried with (paper 01, Sixteen numbers: 12 and 13).
ghost use Rattle.std.specs.Prelude.{◌≤◌, length};
ghost use Rattle.rules.specs.Limits.{vrf_outputs_limit};

use crate::steps::Commitments;
use inputs::response_lines::Kind;

// The kind of the response; of a search its version, the commitment of that, and its ladder; the VRF
// outputs; the steps, and the offsets of their commitments by the records of their versions'
// outputs.
#[derive(Clone, Copy)]
pub(crate) struct Sought<'a> {
    pub(crate) kind: Kind,
    pub(crate) version: u32,
    pub(crate) commitment: [u8; 32],
    pub(crate) ladder: &'a [u32],
    pub(crate) outputs: &'a [u8],
    pub(crate) steps: &'a [u8],
    pub(crate) offsets: &'a [u32; Commitments::RECORDS],
    ghost few: { length outputs.now ≤ vrf_outputs_limit },
}
