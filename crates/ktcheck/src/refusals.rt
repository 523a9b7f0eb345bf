// What a refusal means for the technician: a sentence on standard error, and after one of the
// response's lines one more.
use crate::ended_lines::ended_lines;
use inputs::refusal::Refusal;

// Explains a refusal; `response` is what was read of that file.
pub(crate) fn explain(rt: &impl Eprint, refusal: Refusal, response: &[u8]) {
    let _ = rt.eprint(sentence(refusal));
    if refusal == Refusal::Lines {
        tell_lines(rt, response);
    }
}

// The sentence of a refusal.
fn sentence(refusal: Refusal) -> &'static str {
    match refusal {
        Refusal::Length =>
            "A file is missing, cannot be read or is too long, or the request's identifier does not have 16 bytes.\n",
        Refusal::Configuration =>
            "The settings file is damaged, or it is for a kind of log that this checker does not know.\n",
        Refusal::State => "The state file is damaged: it does not hold a valid state.\n",
        Refusal::VrfOutputs =>
            "The sheet file is damaged: its records are not whole, or their versions do not rise.\n",
        Refusal::Lines =>
            "The response is damaged or cut short: a line or a field of it is not as it must be.\n",
        Refusal::Request =>
            "The response belongs to another request or another label, or the request line is broken.\n",
        Refusal::TreeSize =>
            "The log is empty, too large, or smaller than when it was last accepted: this may be an old answer.\n",
        Refusal::Target =>
            "The version found is older than one found before, or larger than a version can be.\n",
        Refusal::Shape =>
            "The response does not show what was asked for: parts are missing, added or not the right ones.\n",
        Refusal::MissingOutput => "The sheet has no record for a version that the response uses.\n",
        Refusal::Time =>
            "The log's times go back, contradict the kept time, or are too far from the clock: check the clock.\n",
        Refusal::Lookup => "A lookup in the response does not prove what it says.\n",
        Refusal::Ladder =>
            "The lookups do not prove that the version is the newest, or that versions found before are still there.\n",
        Refusal::FullSubtree =>
            "The log's past is not the one that was accepted before: keep all files and report it.\n",
        Refusal::SignedText =>
            "The signed text does not belong to this response and these settings: keep all files and report it.\n",
        Refusal::Room =>
            "No room for one more pair, 48 are kept already: run monitoring, then search again.\n",
    }
}

// Says how far the lines of a response reach, piece by piece: where one cannot be written, the others
// still are.
fn tell_lines(rt: &impl Eprint, response: &[u8]) {
    let lines = ended_lines(response);
    let _ = rt.eprint("Whole lines in it: ");
    let _ = rt.eprint(lines.count);
    let _ = rt.eprint(", up to byte ");
    let _ = rt.eprint(lines.offset);
    let _ = rt.eprint(". Bytes after them: ");
    let _ = rt.eprint(lines.left);
    let _ = rt.eprint(".\n");
}
