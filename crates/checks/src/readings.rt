// What every call reads first (paper 01, Sixteen numbers: 1 to 5).
ghost use Rattle.std.specs.Prelude.{◌≤◌};
ghost use Rattle.checks.specs.Calls.{offset_bound, IsReadCall};

use crate::request::lengths_fit;
use inputs::configuration::{Configuration, read_configuration};
use inputs::refusal::Refusal;
use inputs::response::{Response, read_response};
use inputs::vrf_outputs::outputs_rise;

// A call as read: the configuration and the response, the clock, and the size and time that the
// state keeps of the log.
#[derive(Clone, Copy)]
pub(crate) struct Call {
    pub(crate) configuration: Configuration,
    pub(crate) response: Response,
    pub(crate) clock: u64,
    pub(crate) kept_size: u64,
    pub(crate) kept_timestamp: u64,
}

// Reads what a call is given, with a limit for the response, of whose state it is known whether it
// is valid; or answers the first refusal from 1 to 5 that applies.
pub(crate) fn read_call(
    limit: usize,
    response: &[u8],
    configuration: &[u8],
    valid: bool,
    kept_size: u64,
    kept_timestamp: u64,
    identifier: &[u8],
    clock: u64,
    outputs: &[u8],
    signed: &[u8],
) -> Result<Call, Refusal>
    requires { limit ≤ offset_bound }
    ensures { IsReadCall limit response.now configuration.now valid
        kept_size kept_timestamp
        identifier.now clock outputs.now signed.now result }
{
    if !lengths_fit(limit, response, configuration, signed, outputs, identifier) {
        return Err(Refusal::Length);
    }
    let settings = read_configuration(configuration).ok_or(Refusal::Configuration)?;
    if !valid {
        return Err(Refusal::State);
    }
    if !outputs_rise(outputs) {
        return Err(Refusal::VrfOutputs);
    }
    let response = read_response(response).ok_or(Refusal::Lines)?;
    Ok(Call {
        configuration: settings,
        response,
        clock,
        kept_size,
        kept_timestamp,
    })
}
