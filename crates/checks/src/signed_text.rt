// The signed text (paper 01, Sixteen numbers: the further call): what the log has signed if a
// response is right, for the chip to verify its signature.
ghost use Rattle.std.specs.Prelude.{◌≡◌, is_ok};
ghost use Rattle.rules.specs.Calls.{judge_unsigned, kind_numbered, signed_text_after};
ghost use Rattle.inputs.specs.State.{state_of};
ghost use Rattle.checks.specs.Calls.{asked_kind, arguments_of, length_in, is_placed};

use crate::tree_head::place_tree_head;
use crate::trial::try_1_to_14;
use inputs::refusal::Refusal;
use inputs::response_lines::Kind;
use inputs::state::State;
use tree::log_head::LogHead;

// Tries 1 to 14 on a response to a call of the kind asked for, writes the signed text into the bytes
// lent from an offset on and answers its length; or answers the refusal, 16 with too little room
// there, and writes nothing.
pub fn signed_text(
    asked: Option<Kind>,
    response: &[u8],
    configuration: &[u8],
    state: State,
    identifier: &[u8],
    clock: u64,
    outputs: &[u8],
    buffer: &mut [u8],
    offset: u64,
) -> Result<u64, Refusal>
    ensures answer { length_in result ≡ (signed_text_after buffer.old offset
        (judge_unsigned (state_of state) (asked_kind asked)
        (arguments_of response.now configuration.now identifier.now clock
        outputs.now))).0 }
    ensures ok { is_ok result ≡ is_placed buffer.old offset
        (judge_unsigned (state_of state) (asked_kind asked)
        (arguments_of response.now configuration.now identifier.now clock
        outputs.now)) }
    ensures bytes { buffer.new ≡ (signed_text_after buffer.old offset
        (judge_unsigned (state_of state) (asked_kind asked)
        (arguments_of response.now configuration.now identifier.now clock
        outputs.now))).1 }
{
    let mut values = [0u8; LogHead::BLOCK];
    let passed = try_1_to_14(
        asked,
        response,
        configuration,
        &state,
        identifier,
        clock,
        outputs,
        b"",
        &mut values,
    )?;
    let tree_size = passed.call.response.tree_size;
    place_tree_head(
        buffer,
        offset,
        configuration,
        tree_size,
        passed.checked.root,
    )
}

// The kind of call that a number asks for: 0 for a search, 1 for monitoring.
pub fn kind_numbered(kind: u32) -> Option<Kind>
    ensures { asked_kind result ≡ kind_numbered kind }
{
    match kind {
        0 => Some(Kind::Search),
        1 => Some(Kind::Monitor),
        _ => None,
    }
}
