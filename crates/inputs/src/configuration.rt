// The Configuration of a log (001, 10.2), which paper 01 calls the settings.
ghost use Rattle.std.specs.Prelude.{◌≡◌, ◌≤◌, ◌<◌, length, drop};
ghost use Rattle.rules.specs.Encoding.{uint, read_uint, read_opaque};
ghost use Rattle.rules.specs.Configuration.{read_optional, read_configuration};
ghost use Rattle.inputs.specs.Configuration.{uint16, uint64, uint_in, after_uint, opaque_in, optional_in};
ghost use Rattle.inputs.specs.Configuration.{read_front, front_in, read_times, times_in, configuration_of};

use lines::part::Part;

// The fields in the order of the encoding: suite and mode; the public keys, each the part of the
// encoded configuration that it fills; how far the log's time may be ahead of the clock and behind
// it; the monitoring window; the maximum lifetime, in milliseconds, where there is one.
// Suite and mode stay numbers: the definition configuration_in names them.
#[derive(Clone, Copy)]
pub struct Configuration {
    pub suite: u16,
    pub mode: u8,
    pub signature: Part,
    pub vrf: Part,
    pub ahead: u64,
    pub behind: u64,
    pub window: u64,
    pub lifetime: Option<u64>,
}

// The bytes of a number of each width (RFC 8446, 3.3).
const UINT8: usize = 1;

const UINT16: usize = 2;

const UINT64: usize = 8;

// The suite KT_128_SHA256_P256 (001, 15.1) and the deployment mode contact monitoring (001, 10.2).
const P256_SUITE: u64 = 0x0001;

const CONTACT_MONITORING: u64 = 1;

// What stands before an optional value that is absent, and before one that is present.
const ABSENT: u64 = 0;

const PRESENT: u64 = 1;

// Suite, mode and keys, and the offset after them.
#[derive(Clone, Copy)]
struct Front {
    suite: u64,
    mode: u64,
    signature: Part,
    vrf: Part,
    next: usize,
}

// The times, and the offset after them.
#[derive(Clone, Copy)]
struct Times {
    ahead: u64,
    behind: u64,
    window: u64,
    lifetime: Option<u64>,
    next: usize,
}

// The configuration that bytes encode exactly, of the one suite and mode that are taken.
pub fn read_configuration(s: &[u8]) -> Option<Configuration>
    ensures { configuration_of s.now result ≡ read_configuration s.now }
{
    let front = front_of(s)?;
    let times = times_at(s, front.next)?;
    if times.next < s.len() {
        return None;
    }
    if front.suite != P256_SUITE {
        return None;
    }
    if front.mode != CONTACT_MONITORING {
        return None;
    }
    Some(Configuration {
        suite: front.suite as u16,
        mode: front.mode as u8,
        signature: front.signature,
        vrf: front.vrf,
        ahead: times.ahead,
        behind: times.behind,
        window: times.window,
        lifetime: times.lifetime,
    })
}

// Suite, mode, signature key and VRF key, which stand first.
fn front_of(s: &[u8]) -> Option<Front>
    ensures { front_in s.now result ≡ read_front s.now }
{
    let (suite, mode_at) = uint_at(s, 0, UINT16)?;
    let (mode, signature_at) = uint_at(s, mode_at, UINT8)?;
    let (signature, vrf_at) = opaque_at(s, signature_at)?;
    let (vrf, next) = opaque_at(s, vrf_at)?;
    Some(Front {
        suite,
        mode,
        signature,
        vrf,
        next,
    })
}

// The log's time ahead of the clock and behind it, the monitoring window and the maximum lifetime,
// from an offset on.
fn times_at(s: &[u8], at: usize) -> Option<Times>
    ensures { times_in s.now result ≡ read_times (drop at s.now) }
{
    let (ahead, behind_at) = uint_at(s, at, UINT64)?;
    let (behind, window_at) = uint_at(s, behind_at, UINT64)?;
    let (window, lifetime_at) = uint_at(s, window_at, UINT64)?;
    let (lifetime, next) = optional_at(s, lifetime_at)?;
    Some(Times {
        ahead,
        behind,
        window,
        lifetime,
        next,
    })
}

// The optional number at an offset, and the offset after it.
fn optional_at(s: &[u8], at: usize) -> Option<(Option<u64>, usize)>
    ensures { optional_in s.now result ≡ read_optional (drop at s.now) }
{
    let (present, number_at) = uint_at(s, at, UINT8)?;
    if present == ABSENT {
        return Some((None, number_at));
    }
    if present != PRESENT {
        return None;
    }
    let (value, next) = uint_at(s, number_at, UINT64)?;
    Some((Some(value), next))
}

// The byte string at an offset, after its length of two bytes, and the offset after it.
fn opaque_at(s: &[u8], at: usize) -> Option<(Part, usize)>
    ensures { opaque_in s.now result ≡ read_opaque uint16 (drop at s.now) }
{
    let (length, start) = uint_at(s, at, UINT16)?;
    if ((s.len() - start) as u64) < length {
        return None;
    }
    let stop = start + length as usize;
    Some((Part { start, stop }, stop))
}

// The number of a width at an offset, and the offset after it.
fn uint_at(s: &[u8], at: usize, width: usize) -> Option<(u64, usize)>
    requires { (0 < width) × (width ≤ uint64) }
    ensures result_value { uint_in s.now result ≡ read_uint width (drop at s.now) }
    ensures within { after_uint result ≤ length s.now }
{
    let bytes = s.get(at..)?.get(..width)?;
    Some((uint_of(bytes), at + width))
}

// The number that bytes encode, the highest first.
// By hand: from_be_bytes is for one width, and there are three.
fn uint_of(s: &[u8]) -> u64
    requires { length s.now ≤ uint64 }
    ensures { result ≡ uint s.now }
{
    let mut value: u64 = 0;
    for &byte in s {
        value = value * 256 + byte as u64;
    }
    value
}
