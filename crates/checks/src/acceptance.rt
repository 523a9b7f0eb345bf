// What follows once none of 6 to 15 applies (paper 01, Sixteen numbers): 16, or the new state and
// the value.
ghost use Rattle.std.specs.Prelude.{◌≡◌, true, length};
ghost use Rattle.lists.specs.Choice.{is_some};
ghost use Rattle.lines.specs.Writing.{offset_after_any, put_any};
ghost use Rattle.rules.specs.Refusals.{valid_state};
ghost use Rattle.inputs.specs.State.{state_of};
ghost use Rattle.inputs.proofs.StateBlockLaws.{Sized};
ghost use Rattle.checks.specs.Calls.{value_by, found_by, IsAcceptedAnswer, AreAcceptedBytes};
ghost use Rattle.checks.specs.Map.{IsMap, IsNewMap};

use crate::call::{Accepted, Found};
use crate::map::{moved_pairs, with_pair};
use crate::readings::Call;
use crate::trial::Checked;
use inputs::refusal::Refusal;
use inputs::response_lines::Finding;
use inputs::state::{KeptLog, MonitoringMap, State};
use lines::writing::put_decoded;
use tree::log_head::LogHead;

// 16, or acceptance: the log as the response shows it, the new map, and the value that a search
// found in the first output bytes.
// Behind a reference the lengths of a state's arrays are not known from their types, so `Sized` is asked.
pub(crate) fn accepted(
    text: &[u8],
    call: Call,
    state: &State,
    checked: Checked,
    values: [u8; LogHead::BLOCK],
    output: &mut [u8],
) -> Result<Accepted, Refusal>
    requires sized { Sized state.now }
    requires valid { is_some (valid_state (state_of state.now)) ≡ true }
    ensures answer { IsAcceptedAnswer text.now call state.now checked values
        (length output.old) result }
    ensures bytes { AreAcceptedBytes text.now call state.now checked values
        output.old output.new }
{
    let response = call.response;
    let Some(map) = new_map(
        response.finding,
        response.tree_size,
        state.map,
        checked.position,
    ) else {
        return Err(Refusal::Room);
    };
    let found = put_found(text, response.finding, output)?;
    Ok(Accepted {
        state: State {
            label: state.label,
            log: KeptLog {
                size: response.tree_size,
                timestamp: checked.timestamp,
                values,
            },
            map,
        },
        found,
    })
}

// The new map: in a search with the version at the position of the first complete entry; in
// monitoring each pair at the end of its right path. None where it has no room.
fn new_map(
    finding: Finding,
    tree_size: u64,
    map: MonitoringMap,
    position: u64,
) -> Option<MonitoringMap>
    requires { IsMap map }
    ensures { IsNewMap finding tree_size map position result }
{
    match finding {
        Finding::Search(target) => with_pair(map, position, target.version),
        Finding::Monitor => Some(moved_pairs(tree_size, map)),
    }
}

// What a response finds: of a search its version and the value, which is written to the first output
// bytes.
fn put_found(text: &[u8], finding: Finding, output: &mut [u8]) -> Result<Option<Found>, Refusal>
    ensures found { result
        ≡ found_by finding (offset_after_any output.old 0 (value_by text.now finding)) }
    ensures bytes { output.new
        ≡ put_any output.old 0 (value_by text.now finding) }
{
    match finding {
        Finding::Search(target) => match put_decoded(output, 0, target.value.of(text)) {
            Some(length) => Ok(Some(Found {
                version: target.version,
                length,
            })),
            None => Err(Refusal::Room),
        },
        Finding::Monitor => Ok(None),
    }
}
