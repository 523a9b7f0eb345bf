// What is tried before the sections of a response are looked at (paper 01, Sixteen numbers):
// lengths, kind, identifier and label, size, version.
ghost use Rattle.std.specs.Prelude.{◌≡◌, false, not, ◌||◌, ℕ, ◌≤◌, ltb, length};
ghost use Rattle.std.proofs.Math.Option.{Option-elim};
ghost use Rattle.lists.specs.Lists.{Bytes, any, same};
ghost use Rattle.lines.specs.Hex.{read_hex};
ghost use Rattle.rules.specs.Limits.{label_limit, greatest_version};
ghost use Rattle.inputs.specs.Refusal.{number_in};
ghost use Rattle.inputs.specs.Response.{Fields};
ghost use Rattle.checks.specs.Calls.{are_lengths_fit, is_kind_asked, IsRequested, FitsTarget, IsNumber6to8};

use crate::limits::InputLimit;
use crate::readings::Call;
use inputs::refusal::Refusal;
use inputs::response::Response;
use inputs::response_lines::{Finding, Kind, KtLine};
use inputs::state::State;
use lines::writing::put_decoded;
use tree::log_head::has_size;

// Whether no input is too long, a response being limited to so many bytes, and the identifier has
// its length.
#[tactic(auto, unfolding(lists::specs::Lists::every))]
pub(crate) fn lengths_fit(
    limit: usize,
    response: &[u8],
    configuration: &[u8],
    signed: &[u8],
    outputs: &[u8],
    identifier: &[u8],
) -> bool
    ensures { result ≡ are_lengths_fit limit response.now configuration.now
        signed.now
        outputs.now identifier.now }
{
    if limit < response.len() {
        return false;
    }
    if InputLimit::CONFIGURATION < configuration.len() {
        return false;
    }
    if InputLimit::SIGNED_TEXT < signed.len() {
        return false;
    }
    if InputLimit::VRF_OUTPUTS < outputs.len() {
        return false;
    }
    identifier.len() == KtLine::IDENTIFIER
}

// Tries 6 to 8: given the kind asked for, the identifier sent, and the label and the versions of the
// state.
pub(crate) fn try_6_to_8(
    asked: Option<Kind>,
    text: &[u8],
    call: Call,
    identifier: &[u8],
    label: &[u8],
    versions: &[u32],
) -> Result<(), Refusal>
    requires fields { Fields text.now call.response }
    requires identifier { length identifier.now ≤ label_limit }
    requires label { length label.now ≤ label_limit }
    ensures { IsNumber6to8 asked text.now call identifier.now
        label.now versions.now (number_in result) }
{
    let r = call.response;
    if !is_requested(asked, text, r, identifier, label) {
        return Err(Refusal::Request);
    }
    if !has_size(r.tree_size, call.kept_size) {
        return Err(Refusal::TreeSize);
    }
    if !target_fits(r.finding, versions) {
        return Err(Refusal::Target);
    }
    Ok(())
}

// Whether a response is of the kind asked for, with the identifier sent and the label.
fn is_requested(
    asked: Option<Kind>,
    text: &[u8],
    r: Response,
    identifier: &[u8],
    label: &[u8],
) -> bool
    requires fields { Fields text.now r }
    requires identifier { length identifier.now ≤ label_limit }
    requires label { length label.now ≤ label_limit }
    ensures { IsRequested asked text.now r identifier.now label.now
        result }
{
    if !is_kind_asked(r.finding.kind(), asked) {
        return false;
    }
    if !decodes(r.identifier.of(text), identifier) {
        return false;
    }
    decodes(r.label.of(text), label)
}

// Whether a kind is the one asked for.
fn is_kind_asked(kind: Kind, asked: Option<Kind>) -> bool
    ensures { result ≡ is_kind_asked kind asked }
{
    asked == Some(kind)
}

// Whether a search's version is one that can be searched for, and not below one in the map.
fn target_fits(finding: Finding, versions: &[u32]) -> bool
    ensures { FitsTarget finding versions.now result }
{
    match finding {
        Finding::Search(target) => version_fits(target.version, versions),
        Finding::Monitor => true,
    }
}

// Whether a version is one that can be searched for, and not below one in the map.
fn version_fits(version: u32, versions: &[u32]) -> bool
    ensures { result ≡ not
        (ltb greatest_version version || any (λ (v : ℕ). ltb version v) versions.now) }
{
    if State::GREATEST_VERSION < version {
        return false;
    }
    for other in versions {
        if version < *other {
            return false;
        }
    }
    true
}

// Whether a field encodes certain bytes.
fn decodes(field: &[u8], bytes: &[u8]) -> bool
    requires { length bytes.now ≤ label_limit }
    ensures { result ≡ Option-elim (read_hex field.now) false
        (λ (b : Bytes). same b bytes.now) }
{
    // A buffer as long as the longest label: there is no heap.
    let mut room = [0u8; State::LABEL];
    match put_decoded(&mut room, 0, field) {
        Some(stop) => &room[..stop] == bytes,
        None => false,
    }
}
