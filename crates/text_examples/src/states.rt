// States: new ones, their texts, and texts that say none.
use inputs::state::{Refused, State};
use inputs::state_reader::read_state;
use inputs::state_writer::write_state;
use output_lines::{number, numbers, whether};

// Room for more than the text of any state.
const LENT: usize = 8200;

// The length of a state's text, whether that is the text given, and whether the last byte lent
// stays.
fn written(rt: &impl Print, s: State, text: &[u8]) {
    let mut lent = [b'.'; LENT];
    let length = write_state(s, &mut lent);
    number(rt, length as u64);
    if let Some(put) = lent.get(..length) {
        whether(rt, put == text);
    }
    whether(rt, lent[LENT - 1] == b'.');
}

// The number, what the state holds, and its text.
fn state(rt: &impl Print, read: Result<State, Refused>, text: &[u8]) {
    let (refusal, s) = match read {
        Ok(state) => (0, state),
        Err(refused) => (refused.refusal.number(), refused.state),
    };
    numbers(rt, &[refusal, s.label.length as u64]);
    numbers(rt, &[s.log.size, s.log.timestamp, s.map.count as u64]);
    written(rt, s, text);
}

// The state to begin with, for a label.
pub(crate) fn of_label(rt: &impl Print, label: &[u8], text: &[u8]) {
    state(rt, State::new(label), text);
}

// The state that a text says.
pub(crate) fn of_text(rt: &impl Print, text: &[u8]) {
    state(rt, read_state(text), text);
}

// Whether a state of two values and two pairs is valid, with something put where it should not be.
fn changed(rt: &impl Print, valid: State, part: u64) {
    let mut label = valid.label;
    let mut log = valid.log;
    let mut map = valid.map;
    match part {
        1 => label.bytes[State::LABEL - 1] = 1,
        2 => log.values[64] = 1,
        3 => map.positions[2] = 1,
        4 => map.versions[State::PAIRS - 1] = 1,
        5 => map.count = State::PAIRS + 1,
        6 => label.length = State::LABEL + 1,
        7 => label.length = 0,
        _ => {}
    }
    let s = State { label, log, map };
    whether(rt, s.is_valid());
}

// The same of the state that a text says.
pub(crate) fn unused_room(rt: &impl Print, part: u64, text: &[u8]) {
    let valid = match read_state(text) {
        Ok(state) => state,
        Err(refused) => refused.state,
    };
    changed(rt, valid, part);
}
