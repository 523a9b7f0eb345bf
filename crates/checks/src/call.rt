// A call on a response (paper 01, Sixteen numbers): whether the response is accepted, and what
// comes of it.
ghost use Rattle.std.specs.Prelude.{◌≡◌, length, take};
ghost use Rattle.rules.specs.Calls.{judge_call, output_after};
ghost use Rattle.inputs.specs.State.{state_of};
ghost use Rattle.inputs.proofs.StateBlockLaws.{Sized};
ghost use Rattle.checks.specs.Calls.{asked_kind, arguments_of, answer_of, answer_in, answer_from};

use crate::acceptance::accepted;
use crate::tree_head::is_tree_head;
use crate::trial::try_1_to_14;
use inputs::refusal::Refusal;
use inputs::response_lines::Kind;
use inputs::state::{Refused, State};
use tree::log_head::LogHead;

// What comes of an accepted response: the state afterwards, and what a search found.
#[derive(Clone, Copy)]
pub struct Accepted {
    pub state: State,
    pub found: Option<Found>,
}

// A value that was found: its version, and how many of the output bytes it fills.
#[derive(Clone, Copy)]
pub struct Found {
    pub version: u32,
    pub length: usize,
}

// The answer to a response: for the kind of call asked for, a state, the identifier sent, the
// clock, the VRF outputs and the signed text that the chip approved. The value that a search found
// is written to the first output bytes.
// Its arguments stand one by one, as C gives them: in a struct they would be taken apart at once.
pub fn judge(
    asked: Option<Kind>,
    response: &[u8],
    configuration: &[u8],
    state: State,
    identifier: &[u8],
    clock: u64,
    outputs: &[u8],
    signed: &[u8],
    output: &mut [u8],
) -> Result<Accepted, Refused>
    ensures answer { answer_in result ≡ answer_of state (judge_call (asked_kind asked) (state_of state)
        (arguments_of response.now configuration.now identifier.now clock
        outputs.now)
        signed.now (length output.old)) }
    ensures bytes { output.new ≡ output_after output.old
        (judge_call (asked_kind asked) (state_of state)
        (arguments_of response.now configuration.now identifier.now clock
        outputs.now)
        signed.now (length output.old)) }
{
    answered(
        asked,
        response,
        configuration,
        &state,
        identifier,
        clock,
        outputs,
        signed,
        output,
    )
    .map_err(|refusal| Refused { refusal, state })
}

// The value of an accepted search: the part of the output bytes that it fills.
pub fn value(output: &[u8], length: usize) -> &[u8]
    ensures { result.now ≡ take length output.now }
{
    if output.len() < length {
        return output;
    }
    &output[..length]
}

// The same with a state lent: 1 to 14, then 15, then 16 and what comes of an acceptance.
// Behind a reference the lengths of a state's arrays are not known from their types, so `Sized` is asked.
fn answered(
    asked: Option<Kind>,
    response: &[u8],
    configuration: &[u8],
    state: &State,
    identifier: &[u8],
    clock: u64,
    outputs: &[u8],
    signed: &[u8],
    output: &mut [u8],
) -> Result<Accepted, Refusal>
    requires { Sized state.now }
    ensures answer { answer_from state.now result ≡ answer_of state.now
        (judge_call (asked_kind asked) (state_of state.now)
        (arguments_of response.now configuration.now identifier.now clock
        outputs.now)
        signed.now (length output.old)) }
    ensures bytes { output.new ≡ output_after output.old
        (judge_call (asked_kind asked) (state_of state.now)
        (arguments_of response.now configuration.now identifier.now clock
        outputs.now)
        signed.now (length output.old)) }
{
    let mut values = [0u8; LogHead::BLOCK];
    let passed = try_1_to_14(
        asked,
        response,
        configuration,
        state,
        identifier,
        clock,
        outputs,
        signed,
        &mut values,
    )?;
    let tree_size = passed.call.response.tree_size;
    if !is_tree_head(signed, configuration, tree_size, passed.checked.root) {
        return Err(Refusal::SignedText);
    }
    accepted(response, passed.call, state, passed.checked, values, output)
}
