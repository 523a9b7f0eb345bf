// Byte strings: configurations and VRF outputs.
use inputs::configuration::{Configuration, read_configuration};
use inputs::vrf_outputs::{find_output, outputs_rise};
use lines::writing::put_decoded;
use output_lines::{bytes, number, numbers, whether, word};

// Room for the longest byte string.
pub(crate) const ROOM: usize = 256;

// The bytes that a text encodes, in the first bytes lent; none where it encodes none, or more than
// there is room for.
pub(crate) fn decode<'a>(room: &'a mut [u8; ROOM], text: &[u8]) -> &'a [u8] {
    let length = put_decoded(room, 0, text).unwrap_or(0);
    room.get(..length).unwrap_or(b"")
}

fn fields(rt: &impl Print, s: &[u8], c: Configuration) {
    numbers(rt, &[u64::from(c.suite), u64::from(c.mode)]);
    bytes(rt, c.signature.of(s));
    bytes(rt, c.vrf.of(s));
    numbers(rt, &[c.ahead, c.behind, c.window]);
    match c.lifetime {
        Some(most) => number(rt, most),
        None => word(rt, b" unlimited"),
    }
}

pub(crate) fn configuration(rt: &impl Print, s: &[u8]) {
    match read_configuration(s) {
        Some(c) => fields(rt, s, c),
        None => word(rt, b" broken"),
    }
}

pub(crate) fn outputs(rt: &impl Print, s: &[u8]) {
    whether(rt, outputs_rise(s));
}

// The output of a version; nothing for a number that is none.
pub(crate) fn output(rt: &impl Print, s: &[u8], version: u64) {
    if let Ok(version) = u32::try_from(version) {
        let found = find_output(s, version);
        whether(rt, found.is_some());
        bytes(rt, &found.map_or([0; 32], |f| f.output));
    }
}
