// What the program makes of its files (paper 01, Sixteen numbers): the line that it prints and, for
// an acceptance, what the files `value` and `state.new` get.
ghost use Rattle.std.specs.Prelude.{◌≡◌, ◌≤◌};
ghost use Rattle.lists.specs.Lists.{written};
ghost use Rattle.rules.specs.Limits.{value_limit};
ghost use Rattle.rules.specs.Calls.{judge_call, output_after, text_after};
ghost use Rattle.rules.specs.Program.{requested, judge_files, printed};
ghost use Rattle.inputs.specs.Refusal.{refusal_number};
ghost use Rattle.inputs.specs.State.{state_of};
ghost use Rattle.checks.specs.Calls.{asked_kind};
ghost use Rattle.verifier.specs.Request.{identifier_room, request_in};
ghost use Rattle.verifier.specs.Files.{files_read, outcome_of, outcome_in, are_within, length_found, Left, IsRefusal};

use crate::answer_line::{LINE, put_accepted, put_refusal};
use crate::request::{Request, read_request};
use checks::call::{Found, judge};
use checks::limits::InputLimit;
use inputs::refusal::Refusal;
use inputs::response_lines::Target;
use inputs::state::State;
use inputs::state_reader::state_in;
use inputs::state_writer::write_state;

// How many bytes of the line were written; what was written of an acceptance, or the refusal.
#[derive(Clone, Copy)]
pub struct Outcome {
    pub line: usize,
    pub judged: Result<Written, Refusal>,
}

// How many bytes were written of the value, if there is one, and of the new state's text.
// Lengths beside lent arrays: there is no heap, and slices would keep all three lent, no plainer.
#[derive(Clone, Copy)]
pub struct Written {
    pub value: Option<usize>,
    pub text: usize,
}

impl Outcome {
    // The bytes lent for the line and for the value: enough for all.
    pub const LINE: usize = LINE;

    pub const VALUE: usize = Target::VALUE;
}

// The most bytes of the files `request` and `response`; those of the others are the limits of a
// call.
#[derive(Clone, Copy)]
pub struct FileLimit {}

impl FileLimit {
    pub const REQUEST: usize = Request::TEXT;

    pub const RESPONSE: usize = 65536;
}

// The outcome of the program on its six files. What is handed over of a file may end one byte past
// its limit, which shows that it is too long; `unread` says that some file could not be read. The
// line, the value and the new state's text are written to the first bytes lent for them.
// One flag and six slices: a struct of Options is no plainer, clauses would take its references apart.
pub fn check_files(
    unread: bool,
    request: &[u8],
    response: &[u8],
    configuration: &[u8],
    state: &[u8],
    outputs: &[u8],
    signed: &[u8],
    line: &mut [u8; Outcome::LINE],
    value: &mut [u8; Outcome::VALUE],
    text: &mut [u8; State::TEXT],
) -> Outcome
    ensures outcome { outcome_in result
        ≡ outcome_of (judge_files
        (files_read unread request.now response.now configuration.now
        state.now outputs.now signed.now)) }
    ensures line { line.new
        ≡ written line.old 0
        (printed (judge_files (files_read unread request.now response.now
        configuration.now state.now outputs.now signed.now))) }
    ensures value { value.new
        ≡ output_after value.old
        (judge_files (files_read unread request.now response.now
        configuration.now state.now outputs.now signed.now)) }
    ensures text { text.new
        ≡ text_after text.old
        (judge_files (files_read unread request.now response.now
        configuration.now state.now outputs.now signed.now)) }
{
    if unread {
        return refused(Refusal::Length, line);
    }
    if !files_fit(request, response, configuration, state, outputs, signed) {
        return refused(Refusal::Length, line);
    }
    let asked = read_request(request);
    let held = state_in(state);
    judged(
        asked,
        response,
        configuration,
        held,
        outputs,
        signed,
        line,
        value,
        text,
    )
}

// Whether no file is too long. One test after the other: with `&&` the proof did not close.
fn files_fit(
    request: &[u8],
    response: &[u8],
    configuration: &[u8],
    state: &[u8],
    outputs: &[u8],
    signed: &[u8],
) -> bool
    ensures { result ≡ are_within request.now response.now
        configuration.now state.now outputs.now signed.now }
{
    if FileLimit::REQUEST < request.len() {
        return false;
    }
    if FileLimit::RESPONSE < response.len() {
        return false;
    }
    if InputLimit::CONFIGURATION < configuration.len() {
        return false;
    }
    if State::TEXT < state.len() {
        return false;
    }
    if InputLimit::VRF_OUTPUTS < outputs.len() {
        return false;
    }
    signed.len() <= InputLimit::SIGNED_TEXT
}

// The outcome of a request, for a state.
fn judged(
    request: Request,
    response: &[u8],
    configuration: &[u8],
    state: State,
    outputs: &[u8],
    signed: &[u8],
    line: &mut [u8; Outcome::LINE],
    value: &mut [u8; Outcome::VALUE],
    text: &mut [u8; State::TEXT],
) -> Outcome
    requires { request.length ≤ identifier_room }
    ensures { Left (judge_call (asked_kind request.asked) (state_of state)
        (requested (request_in request) response.now configuration.now
        outputs.now) signed.now value_limit)
        result line.old value.old text.old line.new
        value.new text.new }
{
    let identifier = request.identifier;
    match judge(
        request.asked,
        response,
        configuration,
        state,
        &identifier[..request.length],
        request.clock,
        outputs,
        signed,
        value,
    ) {
        Ok(accepted) => {
            let new = accepted.state;
            Outcome {
                line: put_accepted(line, accepted.found, new.log.size, new.map.count),
                judged: Ok(Written {
                    value: length_found(accepted.found),
                    text: write_state(new, text),
                }),
            }
        }
        Err(answer) => refused(answer.refusal, line),
    }
}

// How many bytes the value that was found has.
fn length_found(found: Option<Found>) -> Option<usize>
    ensures { result ≡ length_found found }
{
    found.map(|value| value.length)
}

// The outcome of a refusal.
fn refused(refusal: Refusal, line: &mut [u8; Outcome::LINE]) -> Outcome
    ensures { IsRefusal (refusal_number refusal) result line.old line.new }
{
    Outcome {
        line: put_refusal(line, refusal.number()),
        judged: Err(refusal),
    }
}
