// The program (paper 01, Sixteen numbers): checks the response among the files of the current
// folder, prints one line and, where it accepts, writes `state.new` and, after a search, `value`.
#![tactic(auto)]

mod ended_lines;
mod outcome;
mod reading;
mod refusals;
mod writing;

use checks::limits::InputLimit;
use inputs::state::State;
use outcome::judge;
use reading::read_file;
use std::rt::Files;
use verifier::files::FileLimit;

// Reads three of the files, each with room for one byte more than is allowed, and goes on with
// them. What is judged of a file that could not be read is empty.
fn main(rt: HostRuntime) {
    let mut request = [0u8; FileLimit::REQUEST + 1];
    let request_read = read_file(&rt, "request", &mut request);
    let mut response = [0u8; FileLimit::RESPONSE + 1];
    let response_read = read_file(&rt, "response", &mut response);
    let mut configuration = [0u8; InputLimit::CONFIGURATION + 1];
    let configuration_read = read_file(&rt, "settings", &mut configuration);
    read_rest(
        &rt,
        request_read.is_none() || response_read.is_none() || configuration_read.is_none(),
        &request[..request_read.unwrap_or(0)],
        &response[..response_read.unwrap_or(0)],
        &configuration[..configuration_read.unwrap_or(0)],
    );
}

// Reads the other three, and judges all six, with one flag for all that could not be read, as check_files
// takes it.
fn read_rest(
    rt: &(impl Files + Print + Eprint),
    unread: bool,
    request: &[u8],
    response: &[u8],
    configuration: &[u8],
) {
    let mut state = [0u8; State::TEXT + 1];
    let state_read = read_file(rt, "state", &mut state);
    let mut outputs = [0u8; InputLimit::VRF_OUTPUTS + 1];
    let outputs_read = read_file(rt, "sheet", &mut outputs);
    let mut signed = [0u8; InputLimit::SIGNED_TEXT + 1];
    let signed_read = read_file(rt, "signed", &mut signed);
    judge(
        rt,
        unread || state_read.is_none() || outputs_read.is_none() || signed_read.is_none(),
        request,
        response,
        configuration,
        &state[..state_read.unwrap_or(0)],
        &outputs[..outputs_read.unwrap_or(0)],
        &signed[..signed_read.unwrap_or(0)],
    );
}
