// A state's text, read (paper 01, What a call is given): a `size` line, a `keep` line for each
// value, a `pair` line for each pair of the map.
ghost use Rattle.std.specs.Prelude.{◌≡◌, [], ◌∷◌, ◌+◌, ◌^◌, ◌<◌, ◌≤◌, length, drop};
ghost use Rattle.std.proofs.Math.Option.{map};
ghost use Rattle.lists.specs.Choice.{option_of};
ghost use Rattle.lines.specs.Field.{up_to, read_fields};
ghost use Rattle.lines.specs.Line.{read_line};
ghost use Rattle.lines.specs.Cursor.{fields_from};
ghost use Rattle.rules.specs.Limits.{label_limit, map_limit, state_text_limit};
ghost use Rattle.rules.specs.State.{State as StateRead};
ghost use Rattle.rules.specs.StateText.{size_form, read_keep, read_pair, read_state, read_state_text};
ghost use Rattle.inputs.specs.TextLine.{read_from};
ghost use Rattle.inputs.specs.State.{block_of, numbered_block, numbered_of, state_of};
ghost use Rattle.inputs.specs.StateReader.{label_read, size_read, pair_of, pair_from_of, with_pair};
ghost use Rattle.inputs.specs.StateReader.{KeepsFrom, PairsFrom, ReadAs, if_valid};

use crate::refusal::Refusal;
use crate::response_lines::last_bytes;
use crate::state::{KeptLog, Label, MonitoringMap, Refused, State};
use crate::text_line::{after_word, line_from, read_from};
use lines::cursor::Cursor;
use lines::hex::read_digest;
use lines::layout::Word;
use lines::writing::{put_bytes, put_decoded};
use tree::log_head::LogHead;

// The bytes of a value.
const VALUE: usize = 32;

// What a `size` line says: the size, the time and the label.
#[derive(Clone, Copy)]
struct SizeLine {
    size: u64,
    timestamp: u64,
    label: Label,
}

// The `keep` lines that follow each other: their number, the offset after them, and the first of
// their values, as many as a block takes. No heap: the room is fixed (project rule).
// No Option where they are too many: state_from_lines tests the number in any case, and the loop needs no exit.
#[derive(Clone, Copy)]
struct Keeps {
    count: usize,
    next: usize,
    values: [u8; LogHead::BLOCK],
}

// The `pair` lines that follow each other: their number with the first of their pairs, as many as a
// state takes, and the offset after them.
// No Option where they are too many: state_from_lines tests the number in any case, and the loop needs no exit.
#[derive(Clone, Copy)]
struct Pairs {
    map: MonitoringMap,
    next: usize,
}

// The state that a text says; refusal 1 for a text that is too long and 3 for one that says no
// valid state, both with the state of the empty label.
pub fn read_state(text: &[u8]) -> Result<State, Refused>
    ensures { numbered_of result ≡ numbered_block (read_state_text text.now) }
{
    if State::TEXT < text.len() {
        return Err(Refused::with_empty_state(Refusal::Length));
    }
    read_valid_state(text).ok_or_else(|| Refused::with_empty_state(Refusal::State))
}

// The struct of the state that a text says; where it says none, as a text that is too long does,
// one that stands for none.
pub fn state_in(text: &[u8]) -> State
    ensures { state_of result ≡ read_state text.now }
{
    match read_state(text) {
        Ok(state) => state,
        Err(refused) => {
            // A state that stands for none, and no Option: judge takes a State, refuses it in its turn and hands it back (clause answer).
            let mut state = refused.state;
            state.label.length = State::LABEL + 1;
            state
        }
    }
}

// The valid state that a text says.
fn read_valid_state(text: &[u8]) -> Option<State>
    requires { length text.now ≤ state_text_limit }
    ensures { option_of result ≡ map block_of (read_state text.now) }
{
    let (line, next) = line_from(text, 0)?;
    let first = size_line(line)?;
    let keeps = read_keeps(text, next);
    let pairs = read_pairs(text, keeps.next);
    if pairs.next < text.len() {
        return None;
    }
    state_from_lines(first, keeps, pairs)
}

// The state of what was read, if it is valid.
fn state_from_lines(first: SizeLine, keeps: Keeps, pairs: Pairs) -> Option<State>
    ensures { (st : StateRead) → ReadAs first keeps pairs st
        → option_of result ≡ map block_of (if_valid st) }
{
    if keeps.count != first.size.count_ones() as usize {
        return None;
    }
    if (LogHead::LEVELS as usize) < keeps.count {
        return None;
    }
    if State::PAIRS < pairs.map.count {
        return None;
    }
    let values = keeps.values;
    let log = KeptLog {
        size: first.size,
        timestamp: first.timestamp,
        values,
    };
    let state = State {
        label: first.label,
        log,
        map: pairs.map,
    };
    state.is_valid().then_some(state)
}

// What a `size` line says.
fn size_line(l: &[u8]) -> Option<SizeLine>
    ensures { option_of result ≡ map size_read (read_line size_form l.now) }
{
    let at_size = after_word(l, &Word::SIZE)?;
    let (size, at_timestamp) = at_size.number(l, u64::MAX)?;
    let (timestamp, at_label) = at_timestamp.number(l, u64::MAX)?;
    let label = last_label(l, at_label)?;
    Some(SizeLine {
        size,
        timestamp,
        label,
    })
}

// The label with which a line ends, from a cursor on.
fn last_label(l: &[u8], c: Cursor) -> Option<Label>
    ensures { option_of result ≡ map label_read
        (read_fields (up_to label_limit ∷ []) (fields_from l.now c.at)) }
{
    let (length, field) = last_bytes(l, c)?;
    if State::LABEL < length {
        return None;
    }
    let mut bytes = [0u8; State::LABEL];
    put_decoded(&mut bytes, 0, field.of(l));
    Some(Label { bytes, length })
}

// The value of a `keep` line.
fn keep_line(l: &[u8]) -> Option<[u8; 32]>
    ensures { option_of result ≡ read_keep l.now }
{
    let next = after_word(l, &Word::KEEP)?;
    if l.len() < next.at {
        return None;
    }
    let field = next.field(l);
    if field.len() < l.len() - next.at {
        return None;
    }
    read_digest(field)
}

// The position and the version of a `pair` line.
fn pair_line(l: &[u8]) -> Option<(u64, u32)>
    ensures { pair_of result ≡ read_pair l.now }
{
    let at_position = after_word(l, &Word::PAIR)?;
    let (position, at_version) = at_position.number(l, u64::MAX)?;
    let (version, next) = at_version.number(l, u32::MAX as u64)?;
    if next.at <= l.len() {
        return None;
    }
    Some((position, version as u32))
}

// The value of the `keep` line at an offset, and the offset after it.
fn keep_from(text: &[u8], at: usize) -> Option<([u8; 32], usize)>
    ensures { option_of result ≡ read_from read_keep text.now at }
{
    read_from(text, at, keep_line)
}

// The pair of the `pair` line at an offset, and the offset after it.
fn pair_from(text: &[u8], at: usize) -> Option<((u64, u32), usize)>
    ensures { pair_from_of result ≡ read_from read_pair text.now at }
{
    read_from(text, at, pair_line)
}

// The `keep` lines from an offset on.
fn read_keeps(text: &[u8], from: usize) -> Keeps
    requires { (from ≤ length text.now) × (length text.now ≤ state_text_limit) }
    ensures { KeepsFrom text.now from result }
{
    let mut values = [0u8; LogHead::BLOCK];
    let mut count: usize = 0;
    let mut at = from;
    while let Some(keep) = keep_from(text, at) {
        let (value, next) = keep;
        put_bytes(&mut values, VALUE * count, &value);
        count += 1;
        at = next;
    }
    Keeps {
        count,
        next: at,
        values,
    }
}

// The `pair` lines from an offset on.
fn read_pairs(text: &[u8], from: usize) -> Pairs
    requires { from ≤ length text.now }
    ensures { PairsFrom text.now from result }
{
    let mut map = MonitoringMap {
        positions: [0; State::PAIRS],
        versions: [0; State::PAIRS],
        count: 0,
    };
    let mut at = from;
    while let Some(((position, version), next)) = pair_from(text, at) {
        put_pair(&mut map, position, version);
        at = next;
    }
    Pairs { map, next: at }
}

// Counts a pair, and stores it where there is room for it.
fn put_pair(map: &mut MonitoringMap, position: u64, version: u32)
    requires counts { map.old.count + 1 < 2 ^ 64 }
    requires room { (length map.old.positions ≡ map_limit) × (length map.old.versions ≡ map_limit) }
    ensures { map.new ≡ with_pair map.old position version }
{
    if map.count < State::PAIRS {
        map.positions[map.count] = position;
        map.versions[map.count] = version;
    }
    map.count += 1;
}
