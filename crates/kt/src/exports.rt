// The functions that C programs call, on numbers and byte slices; include/kt.h declares them.
ghost use Rattle.std.specs.Prelude.{◌≡◌, ◌+◌, ◌≤◌, length};
ghost use Rattle.std.proofs.lemmas.List.Edits.{sets};
ghost use Rattle.hash.specs.Bytes.{big_endian};
ghost use Rattle.rules.specs.Calls.{output_after, kt_call, kt_search, kt_monitor, kt_signed_text, text_after};
ghost use Rattle.rules.specs.Calls.{answer_word};
ghost use Rattle.checks.specs.Calls.{asked_kind, arguments_of};
ghost use Rattle.kt.specs.Exports.{sha256_answer, sha256_output, version_length, ladder_answer};
ghost use Rattle.kt.specs.Exports.{ladder_output, length_found};

use checks::call::{Found, judge};
use checks::signed_text::{kind_numbered, signed_text};
use inputs::refusal::Refusal;
use inputs::response_lines::Kind;
use inputs::state::State;
use inputs::state_reader::state_in;
use inputs::state_writer::write_state;
use tree::ladder::Ladder;

pub const DIGEST_LENGTH: usize = 32;

pub const VERSION_LENGTH: usize = 4;

// What the lengths in an answer are counted by: they stand above 8 bits, and above 32.
const VALUE_UNIT: u64 = 1 << 8;

const TEXT_UNIT: u64 = 1 << 32;

// Writes the SHA-256 digest of a message to the first bytes lent and answers its length; with too
// little room it answers 0 and writes nothing.
#[unsafe(no_mangle)]
pub extern "C" fn kt_sha256(message: &[u8], digest: &mut [u8]) -> u64
    ensures { (result ≡ sha256_answer digest.old)
        × (digest.new ≡ sha256_output message.now digest.old) }
{
    if digest.len() < DIGEST_LENGTH {
        return 0;
    }
    digest[..DIGEST_LENGTH].copy_from_slice(&hash::sha256::digest(message));
    DIGEST_LENGTH as u64
}

// Writes the versions of the binary ladder of a version to the first bytes lent, each as 4 bytes,
// the highest byte first, and answers how many they are; for 2^32 - 1 and with too little room it
// answers 0 and writes nothing.
#[unsafe(no_mangle)]
pub extern "C" fn kt_ladder(version: u32, versions: &mut [u8]) -> u64
    ensures { (result ≡ ladder_answer version versions.old)
        × (versions.new ≡ ladder_output version versions.old) }
{
    let ladder = Ladder::of(version);
    let length = ladder.length;
    if versions.len() < VERSION_LENGTH * length {
        return 0;
    }
    let all = &ladder.versions[..length];
    for (i, v) in all.iter().enumerate() {
        put_version(versions, VERSION_LENGTH * i, *v);
    }
    length as u64
}

// Checks a response to a search and answers what came of it: a refusal's number in the low 8 bits,
// 0 for acceptance; then, in the next 24 bits, the length of the value, which stands in the first
// output bytes, and in the high 32 bits the length of the new state's text, which stands in the
// first bytes of new_state. The state is given by its text. A refusal writes nothing.
#[unsafe(no_mangle)]
pub extern "C" fn kt_search(
    response: &[u8],
    configuration: &[u8],
    state: &[u8],
    identifier: &[u8],
    clock: u64,
    vrf_outputs: &[u8],
    signed_text: &[u8],
    output: &mut [u8],
    new_state: &mut [u8],
) -> u64
    ensures answer { result ≡ answer_word (kt_search state.now
        (arguments_of response.now configuration.now identifier.now clock
        vrf_outputs.now)
        signed_text.now output.old new_state.old) }
    ensures output { output.new
        ≡ output_after output.old (kt_search state.now
        (arguments_of response.now configuration.now identifier.now clock
        vrf_outputs.now)
        signed_text.now output.old new_state.old) }
    ensures state { new_state.new
        ≡ text_after new_state.old (kt_search state.now
        (arguments_of response.now configuration.now identifier.now clock
        vrf_outputs.now)
        signed_text.now output.old new_state.old) }
{
    answered(
        Some(Kind::Search),
        response,
        configuration,
        state,
        identifier,
        clock,
        vrf_outputs,
        signed_text,
        output,
        new_state,
    )
}

// Checks a response to monitoring and answers what came of it: as kt_search, without a value.
#[unsafe(no_mangle)]
pub extern "C" fn kt_monitor(
    response: &[u8],
    configuration: &[u8],
    state: &[u8],
    identifier: &[u8],
    clock: u64,
    vrf_outputs: &[u8],
    signed_text: &[u8],
    new_state: &mut [u8],
) -> u64
    ensures answer { result ≡ answer_word (kt_monitor state.now
        (arguments_of response.now configuration.now identifier.now clock
        vrf_outputs.now)
        signed_text.now new_state.old) }
    ensures state { new_state.new
        ≡ text_after new_state.old (kt_monitor state.now
        (arguments_of response.now configuration.now identifier.now clock
        vrf_outputs.now)
        signed_text.now new_state.old) }
{
    let mut output = [0u8; 1];
    answered(
        Some(Kind::Monitor),
        response,
        configuration,
        state,
        identifier,
        clock,
        vrf_outputs,
        signed_text,
        &mut output[..0],
        new_state,
    )
}

// Checks a response to a call of a kind: what kt_search and kt_monitor share. No struct of its
// parameters: C gives them one by one.
fn answered(
    asked: Option<Kind>,
    response: &[u8],
    configuration: &[u8],
    state: &[u8],
    identifier: &[u8],
    clock: u64,
    vrf_outputs: &[u8],
    signed_text: &[u8],
    output: &mut [u8],
    new_state: &mut [u8],
) -> u64
    ensures answer { result ≡ answer_word (kt_call (asked_kind asked) state.now
        (arguments_of response.now configuration.now identifier.now clock
        vrf_outputs.now)
        signed_text.now (length output.old) new_state.old) }
    ensures output { output.new
        ≡ output_after output.old (kt_call (asked_kind asked) state.now
        (arguments_of response.now configuration.now identifier.now clock
        vrf_outputs.now)
        signed_text.now (length output.old) new_state.old) }
    ensures state { new_state.new
        ≡ text_after new_state.old (kt_call (asked_kind asked) state.now
        (arguments_of response.now configuration.now identifier.now clock
        vrf_outputs.now)
        signed_text.now (length output.old) new_state.old) }
{
    if State::TEXT < state.len() {
        return Refusal::Length.number();
    }
    if new_state.len() < State::TEXT {
        return Refusal::Length.number();
    }
    let held = state_in(state);
    match judge(
        asked,
        response,
        configuration,
        held,
        identifier,
        clock,
        vrf_outputs,
        signed_text,
        output,
    ) {
        Ok(accepted) => {
            let value = length_found(accepted.found) as u64;
            let text = write_state(accepted.state, new_state) as u64;
            value * VALUE_UNIT + text * TEXT_UNIT
        }
        Err(refused) => refused.refusal.number(),
    }
}

// How many bytes the value that was found fills; 0 where none was.
fn length_found(found: Option<Found>) -> usize
    ensures { result ≡ length_found found }
{
    found.map_or(0, |value| value.length)
}

// Checks a response to a search (kind 0) or to monitoring (kind 1), without the signed text: writes
// that text into the bytes lent from an offset on and answers its length, or answers the number of
// the refusal and writes nothing. The state is given by its text, and stays. The kind is a number, as C
// gives it.
#[unsafe(no_mangle)]
pub extern "C" fn kt_signed_text(
    kind: u32,
    response: &[u8],
    configuration: &[u8],
    state: &[u8],
    identifier: &[u8],
    clock: u64,
    vrf_outputs: &[u8],
    buffer: &mut [u8],
    offset: u64,
) -> u64
    ensures answer { result ≡ (kt_signed_text kind state.now
        (arguments_of response.now configuration.now identifier.now clock
        vrf_outputs.now)
        buffer.old offset).0 }
    ensures bytes { buffer.new ≡ (kt_signed_text kind state.now
        (arguments_of response.now configuration.now identifier.now clock
        vrf_outputs.now)
        buffer.old offset).1 }
{
    if State::TEXT < state.len() {
        return Refusal::Length.number();
    }
    let held = state_in(state);
    match signed_text(
        kind_numbered(kind),
        response,
        configuration,
        held,
        identifier,
        clock,
        vrf_outputs,
        buffer,
        offset,
    ) {
        Ok(length) => length,
        Err(refusal) => refusal.number(),
    }
}

// Writes a version as 4 bytes from an offset on.
fn put_version(bytes: &mut [u8], at: usize, version: u32)
    requires { at + version_length ≤ length bytes.old }
    ensures { bytes.new ≡ sets bytes.old at (big_endian version_length version) }
{
    bytes[at..at + VERSION_LENGTH].copy_from_slice(&version.to_be_bytes());
}
