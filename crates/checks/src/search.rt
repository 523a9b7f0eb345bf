// What a search asks of a response (paper 01, Ladder, search, monitoring).
ghost use Rattle.std.specs.Prelude.{◌≡◌, ◌≤◌, length};
ghost use Rattle.tree.specs.Ladder.{ladder};
ghost use Rattle.rules.specs.Limits.{vrf_outputs_limit};
ghost use Rattle.inputs.specs.declared.response_lines.Finding.TheVariants.{Search};
ghost use Rattle.checks.specs.Calls.{offset_bound, Shapeable, IsShape};
ghost use Rattle.checks.specs.Sections.{StepLines};
ghost use Rattle.checks.specs.Steps.{are_search_steps, AreSteps};

use crate::entries::entries_asked;
use crate::readings::Call;
use crate::steps::{Commitments, wanted_step};
use crate::trial::Shape;
use inputs::response_lines::{Kind, Target};
use tree::ladder::Ladder;

// What else is told of a search for a target that shows what is asked: the frontier, in each entry a beginning
// of the ladder, and the ladder as steps. The offsets of the commitments go into the table lent.
pub(crate) fn search_asked(
    text: &[u8],
    call: Call,
    target: Target,
    positions: &[u64],
    versions: &[u32],
    outputs: &[u8],
    commitments: &mut [u32; Commitments::RECORDS],
) -> Option<Shape>
    requires possible { Shapeable text.now call positions.now versions.now outputs.now }
    requires finding { call.response.finding ≡ Search target }
    ensures { IsShape text.now call positions.now versions.now
        outputs.now result commitments.new }
{
    let version = target.version;
    let whole = Ladder::of(version);
    let ladder = whole.versions;
    let length = whole.length;
    let mut marks = [0u32; 1];
    let timestamps = entries_asked(
        Kind::Search,
        call.response.entries.part.of(text),
        call.response.tree_size,
        call.kept_size,
        call.kept_timestamp,
        &ladder[..length],
        &positions[..0],
        &versions[..0],
        &mut marks[..0],
    )?;
    let outputs = search_steps(
        call.response.steps.part.of(text),
        &ladder[..length],
        version,
        outputs,
        commitments,
    )?;
    Some(Shape {
        outputs,
        timestamps,
    })
}

// Whether there is an output of each version of the steps, if these are those of a search for a
// version, whose ladder is wanted: its versions, with the commitments of those below the version.
// The offsets of the commitments go into the table lent, by the records of their versions' outputs.
fn search_steps(
    steps: &[u8],
    wanted: &[u32],
    version: u32,
    outputs: &[u8],
    offsets: &mut [u32; Commitments::RECORDS],
) -> Option<bool>
    requires lines { StepLines steps.now }
    requires short { length steps.now ≤ offset_bound }
    requires ladder { wanted.now ≡ ladder version }
    requires outputs { length outputs.now ≤ vrf_outputs_limit }
    ensures { AreSteps steps.now outputs.now
        (are_search_steps steps.now version) result offsets.new }
{
    let mut at: usize = 0;
    let mut there = true;
    for v in wanted {
        let (output, next) = wanted_step(steps, at, *v, *v < version, outputs, offsets)?;
        there &= output;
        at = next;
    }
    (at == steps.len()).then_some(there)
}
