// What monitoring asks of a response (paper 01, Ladder, search, monitoring).
ghost use Rattle.std.specs.Prelude.{◌≡◌, true, ℕ, ◌≤◌, leb, length};
ghost use Rattle.lists.specs.Lists.{all};
ghost use Rattle.rules.specs.Limits.{vrf_outputs_limit, greatest_version};
ghost use Rattle.inputs.specs.declared.response_lines.Finding.TheVariants.{Monitor};
ghost use Rattle.checks.specs.Calls.{offset_bound, Shapeable, IsShape};
ghost use Rattle.checks.specs.Sections.{StepLines};
ghost use Rattle.checks.specs.Steps.{are_monitoring_steps, AreSteps};
ghost use Rattle.checks.specs.MonitoredVersions.{smallest, stepped_on, AreMarks};

use crate::entries::entries_asked;
use crate::monitored_versions::{NONE, next_not_above};
use crate::readings::Call;
use crate::steps::{Commitments, wanted_step};
use crate::trial::Shape;
use inputs::response_lines::Kind;
use inputs::state::State;

// What else is told of monitoring that shows what is asked: the frontier and the right paths of the
// pairs, in each entry the versions of its pair, and all these versions as steps. The offsets of
// the commitments go into the table lent.
pub(crate) fn monitoring_asked(
    text: &[u8],
    call: Call,
    positions: &[u64],
    versions: &[u32],
    outputs: &[u8],
    commitments: &mut [u32; Commitments::RECORDS],
) -> Option<Shape>
    requires possible { Shapeable text.now call positions.now versions.now outputs.now }
    requires finding { call.response.finding ≡ Monitor }
    ensures { IsShape text.now call positions.now versions.now
        outputs.now result commitments.new }
{
    let mut marks = [NONE; State::PAIRS];
    let pairs = versions.len();
    let timestamps = entries_asked(
        Kind::Monitor,
        call.response.entries.part.of(text),
        call.response.tree_size,
        call.kept_size,
        call.kept_timestamp,
        &versions[..0],
        positions,
        versions,
        &mut marks[..pairs],
    )?;
    let outputs = monitoring_steps(
        call.response.steps.part.of(text),
        versions,
        &mut marks[..pairs],
        outputs,
        commitments,
    )?;
    Some(Shape {
        outputs,
        timestamps,
    })
}

// Whether there is an output of each version of the steps, if these are those of monitoring: the
// versions looked up for the pairs that count, which are those with mark 0. The offsets of the
// commitments go into the table lent, by the records of their versions' outputs. A loop: how many steps are
// wanted shows only in it.
fn monitoring_steps(
    steps: &[u8],
    versions: &[u32],
    marks: &mut [u32],
    outputs: &[u8],
    offsets: &mut [u32; Commitments::RECORDS],
) -> Option<bool>
    requires lines { StepLines steps.now }
    requires short { length steps.now ≤ offset_bound }
    requires marks { AreMarks marks.old versions.now }
    requires outputs { length outputs.now ≤ vrf_outputs_limit }
    ensures { AreSteps steps.now outputs.now
        (are_monitoring_steps steps.now marks.old versions.now) result offsets.new }
{
    let mut at: usize = 0;
    let mut there = true;
    loop {
        let wanted = smallest_of(marks);
        if wanted == NONE {
            return (at == steps.len()).then_some(there);
        }
        let (output, next) = wanted_step(steps, at, wanted, true, outputs, offsets)?;
        there &= output;
        step_on(versions, marks, wanted + 1);
        at = next;
    }
}

// The smallest of some versions, or none.
fn smallest_of(versions: &[u32]) -> u32
    ensures { result ≡ smallest versions.now }
{
    let mut least = NONE;
    for version in versions {
        least = least.min(*version);
    }
    least
}

// Moves each pair's next version to the first from a version on.
fn step_on(versions: &[u32], next: &mut [u32], from: u32)
    requires pairs { length next.old ≡ length versions.now }
    requires versions { all (λ (v : ℕ). leb v greatest_version) versions.now ≡ true }
    ensures { next.new ≡ stepped_on versions.now next.old from }
{
    for (i, version) in versions.iter().enumerate() {
        if next[i] < from {
            next[i] = next_not_above(*version, from);
        }
    }
}
