// Refusals 1 to 14 in the order of trial (paper 01, Sixteen numbers).
// The walk (14) is called by itself, so that nothing of 6 to 13 lies on the stack below it.
ghost use Rattle.std.specs.Prelude.{◌≤◌, length};
ghost use Rattle.rules.specs.Limits.{label_limit};
ghost use Rattle.inputs.proofs.StateBlockLaws.{Sized};
ghost use Rattle.checks.specs.Calls.{Is1to14Tried, Checkable, Is6to13Tried, Shapeable, Is9to13Tried, Is14Tried};
ghost use Rattle.checks.specs.Calls.{Is9to11Tried, IsShape};

use crate::limits::InputLimit;
use crate::lookups::try_12_and_13;
use crate::monitoring::monitoring_asked;
use crate::readings::{Call, read_call};
use crate::request::try_6_to_8;
use crate::search::search_asked;
use crate::steps::Commitments;
use crate::timestamps::{Timestamps, near_clock};
use inputs::refusal::Refusal;
use inputs::response_lines::{Finding, Kind};
use inputs::state::State;
use tree::log_head::{LogHead, log_head, nodes_asked};

// What comes of a response to which none of 6 to 13 applies: the position of a search's first
// complete entry, the timestamp of the last entry.
#[derive(Clone, Copy)]
pub(crate) struct Tried {
    pub(crate) position: u64,
    pub(crate) timestamp: u64,
}

// The same of 6 to 14, and the root of the log.
// No `Tried` in it: acceptance reads each field alone, and would only have one name more to go through.
#[derive(Clone, Copy)]
pub(crate) struct Checked {
    pub(crate) position: u64,
    pub(crate) timestamp: u64,
    pub(crate) root: [u8; 32],
}

// A call to which none of 1 to 14 applies, and what comes of it.
#[derive(Clone, Copy)]
pub(crate) struct Passed {
    pub(crate) call: Call,
    pub(crate) checked: Checked,
}

// Of a response whose steps and entries are as asked: whether there is an output of each step's
// version, and the times of the entries.
#[derive(Clone, Copy)]
pub(crate) struct Shape {
    pub(crate) outputs: bool,
    pub(crate) timestamps: Timestamps,
}

// Tries 1 to 14 on what a call is given, for the kind of call asked for. The values of the full
// subtrees go into the block lent.
// Behind a reference the lengths of a state's arrays are not known from their types, so `Sized` is asked.
pub(crate) fn try_1_to_14(
    asked: Option<Kind>,
    response: &[u8],
    configuration: &[u8],
    state: &State,
    identifier: &[u8],
    clock: u64,
    outputs: &[u8],
    signed: &[u8],
    values: &mut [u8; LogHead::BLOCK],
) -> Result<Passed, Refusal>
    requires { Sized state.now }
    ensures { Is1to14Tried asked response.now configuration.now state.now
        identifier.now clock outputs.now signed.now result values.new }
{
    let call = read_call(
        InputLimit::RESPONSE,
        response,
        configuration,
        state.is_valid(),
        state.log.size,
        state.log.timestamp,
        identifier,
        clock,
        outputs,
        signed,
    )?;
    let tried = try_6_to_13(asked, response, call, identifier, state, outputs)?;
    let checked = try_14(response, call, tried, &state.log.values, values)?;
    Ok(Passed { call, checked })
}

// Tries 6 to 13 on a call that was read. Not inlined: its table of commitments is off the stack before the
// walk (14) begins.
#[inline(never)]
fn try_6_to_13(
    asked: Option<Kind>,
    text: &[u8],
    call: Call,
    identifier: &[u8],
    state: &State,
    outputs: &[u8],
) -> Result<Tried, Refusal>
    requires { Checkable text.now call identifier.now state.now outputs.now }
    ensures { Is6to13Tried asked text.now call identifier.now state.now outputs.now result }
{
    let label = &state.label.bytes[..state.label.length];
    let positions = &state.map.positions[..state.map.count];
    let versions = &state.map.versions[..state.map.count];
    try_6_to_8(asked, text, call, identifier, label, versions)?;
    try_9_to_13(text, call, label, positions, versions, outputs)
}

// Tries 14 on a call to which none of 6 to 13 applies. The values of the full subtrees go into the
// block lent.
fn try_14(
    text: &[u8],
    call: Call,
    tried: Tried,
    kept: &[u8; LogHead::BLOCK],
    values: &mut [u8; LogHead::BLOCK],
) -> Result<Checked, Refusal>
    ensures { Is14Tried text.now call tried kept.now result
        values.new }
{
    let head = log_head(
        call.response.entries.part.of(text),
        call.response.nodes.part.of(text),
        call.response.tree_size,
        call.kept_size,
        kept,
        values,
    );
    if !head.met {
        return Err(Refusal::FullSubtree);
    }
    let root = head.root;
    Ok(Checked {
        position: tried.position,
        timestamp: tried.timestamp,
        root,
    })
}

// Tries 9 to 13 on a call to which none of 6 to 8 applies.
fn try_9_to_13(
    text: &[u8],
    call: Call,
    label: &[u8],
    positions: &[u64],
    versions: &[u32],
    outputs: &[u8],
) -> Result<Tried, Refusal>
    requires possible { Shapeable text.now call positions.now versions.now outputs.now }
    requires label { length label.now ≤ label_limit }
    ensures { Is9to13Tried text.now call label.now
        positions.now versions.now outputs.now result }
{
    let mut commitments = [0u32; Commitments::RECORDS];
    let timestamp = try_9_to_11(text, call, positions, versions, outputs, &mut commitments)?;
    let position = try_12_and_13(text, call, label, outputs, &commitments)?;
    Ok(Tried {
        position,
        timestamp,
    })
}

// Tries 9 to 11. The offsets of the commitments go into the table lent, by the records of their
// versions' outputs.
fn try_9_to_11(
    text: &[u8],
    call: Call,
    positions: &[u64],
    versions: &[u32],
    outputs: &[u8],
    commitments: &mut [u32; Commitments::RECORDS],
) -> Result<u64, Refusal>
    requires possible { Shapeable text.now call positions.now versions.now outputs.now }
    ensures { Is9to11Tried text.now call positions.now versions.now
        outputs.now result commitments.new }
{
    let shape = asked_by_kind(text, call, positions, versions, outputs, commitments).ok_or(
        Refusal::Shape,
    )?;
    let nodes = nodes_asked(
        call.response.entries.part.of(text),
        call.response.tree_size,
        call.kept_size,
    );
    if nodes != call.response.nodes.count as u64 {
        return Err(Refusal::Shape);
    }
    if !shape.outputs {
        return Err(Refusal::MissingOutput);
    }
    if !shape.timestamps.fit {
        return Err(Refusal::Time);
    }
    let ahead = call.configuration.ahead;
    let behind = call.configuration.behind;
    if !near_clock(shape.timestamps.latest, call.clock, ahead, behind) {
        return Err(Refusal::Time);
    }
    Ok(shape.timestamps.latest)
}

// What else is told of a response that shows what its kind asks. The offsets of the commitments go
// into the table lent.
// Text, call, pairs and outputs are no struct: the table written to could not go along, and 12 takes no pairs.
fn asked_by_kind(
    text: &[u8],
    call: Call,
    positions: &[u64],
    versions: &[u32],
    outputs: &[u8],
    commitments: &mut [u32; Commitments::RECORDS],
) -> Option<Shape>
    requires possible { Shapeable text.now call positions.now versions.now outputs.now }
    ensures { IsShape text.now call positions.now versions.now
        outputs.now result commitments.new }
{
    match call.response.finding {
        Finding::Search(target) => search_asked(
            text,
            call,
            target,
            positions,
            versions,
            outputs,
            commitments,
        ),
        Finding::Monitor => monitoring_asked(text, call, positions, versions, outputs, commitments),
    }
}
