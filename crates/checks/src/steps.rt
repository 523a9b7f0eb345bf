// The steps of a response (paper 01, Ladder, search, monitoring), and the table of their
// commitments.
ghost use Rattle.std.specs.Prelude.{◌≤◌, length, drop};
ghost use Rattle.rules.specs.Limits.{vrf_outputs_limit};
ghost use Rattle.checks.specs.Calls.{offset_bound};
ghost use Rattle.checks.specs.Sections.{StepLines};
ghost use Rattle.checks.specs.Steps.{IsNoted, IsWantedStep};

use crate::sections::next_step;
use inputs::vrf_outputs::find_output;

// The table of commitments: the offset in the steps where that of a version stands, by the record
// of the version's output.
#[derive(Clone, Copy)]
pub(crate) struct Commitments {}

impl Commitments {
    // The most records of outputs.
    pub(crate) const RECORDS: usize = 1024;
}

// The step at an offset, if it is of a version wanted and has a commitment exactly where one is
// wanted: whether there is an output of the version, and the offset of the next step. The offset of
// the commitment goes into the table lent.
// Steps, outputs and table are no struct: the table is written to, so each call would have to lend it anew.
pub(crate) fn wanted_step(
    steps: &[u8],
    at: usize,
    version: u32,
    committed: bool,
    outputs: &[u8],
    offsets: &mut [u32; Commitments::RECORDS],
) -> Option<(bool, usize)>
    requires lines { StepLines (drop at steps.now) }
    requires within { at ≤ length steps.now }
    requires short { length steps.now ≤ offset_bound }
    requires outputs { length outputs.now ≤ vrf_outputs_limit }
    ensures { IsWantedStep steps.now at version committed
        outputs.now offsets.old result offsets.new }
{
    let step = next_step(steps, at)?;
    if (step.version != version) | (step.commitment.is_some() != committed) {
        return None;
    }
    let there = note_commitment(outputs, version, step.commitment.unwrap_or(0), offsets);
    Some((there, step.next))
}

// Notes in the table lent the offset of the commitment of a version, if there is an output of it;
// whether there is one.
fn note_commitment(
    outputs: &[u8],
    version: u32,
    offset: usize,
    offsets: &mut [u32; Commitments::RECORDS],
) -> bool
    requires offset { offset ≤ offset_bound }
    requires outputs { length outputs.now ≤ vrf_outputs_limit }
    ensures { IsNoted outputs.now version offset offsets.old result
        offsets.new }
{
    match find_output(outputs, version) {
        Some(found) => {
            offsets[found.index] = offset as u32;
            true
        }
        None => false,
    }
}
