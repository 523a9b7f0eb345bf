// What comes of the files: an acceptance is written and then printed, a refusal printed and
// explained.
use crate::refusals::explain;
use crate::writing::{Told, print, write_file};
use inputs::state::State;
use std::rt::Files;
use verifier::files::{Outcome, check_files};

// Judges the six files, of which one or more may be unread, and reports what comes of them.
// No struct of them, and one flag: check_files takes them so, one by one.
pub(crate) fn judge(
    rt: &(impl Files + Print + Eprint),
    unread: bool,
    request: &[u8],
    response: &[u8],
    configuration: &[u8],
    state: &[u8],
    outputs: &[u8],
    signed: &[u8],
) {
    let mut line = [0u8; Outcome::LINE];
    let mut value = [0u8; Outcome::VALUE];
    let mut text = [0u8; State::TEXT];
    let outcome = check_files(
        unread,
        request,
        response,
        configuration,
        state,
        outputs,
        signed,
        &mut line,
        &mut value,
        &mut text,
    );
    let line = &line[..outcome.line];
    match outcome.judged {
        Ok(written) => {
            // A match: in a closure the bound of the part was not proved.
            let value = match written.value {
                Some(length) => Some(&value[..length]),
                None => None,
            };
            let _ = accept(rt, line, value, &text[..written.text]);
        }
        Err(refusal) => {
            let _ = print(rt, line);
            explain(rt, refusal, response);
        }
    }
}

// Writes the value, if there is one, and then the new state; prints the line once both are there.
fn accept(
    rt: &(impl Files + Print + Eprint),
    line: &[u8],
    value: Option<&[u8]>,
    text: &[u8],
) -> Result<(), Told> {
    if let Some(value) = value {
        write_file(rt, "value", "value.part", value)?;
    }
    write_file(rt, "state.new", "state.new.part", text)?;
    print(rt, line)
}
