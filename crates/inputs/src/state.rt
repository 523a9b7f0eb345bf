// The state that is kept between calls (paper 01, What a call is given).
ghost use Rattle.std.specs.Prelude.{◌≡◌, ◌&&◌, ◌||◌, ◌≤◌, eqb, ltb, [], length, take};
ghost use Rattle.lists.specs.Choice.{is_some};
ghost use Rattle.rules.specs.Limits.{label_limit, map_limit};
ghost use Rattle.rules.specs.State.{empty_state, new_state};
ghost use Rattle.rules.specs.Refusals.{valid_state};
ghost use Rattle.inputs.specs.State.{label_block, block_of, numbered_block, numbered_of, state_of, zeros_from};
ghost use Rattle.inputs.specs.State.{label_fits, log_fits, pairs_fit, map_fits};

use crate::refusal::Refusal;
use tree::log_head::LogHead;

// A label: its bytes, with zeros after them, and its length. No heap: the room is fixed (project rule).
#[derive(Clone, Copy)]
pub struct Label {
    pub bytes: [u8; State::LABEL],
    pub length: usize,
}

// What is kept of the log: its size m, the time of entry m - 1, and the values of its full
// subtrees, left to right, with zeros after them. No heap: the room is fixed (project rule).
#[derive(Clone, Copy)]
pub struct KeptLog {
    pub size: u64,
    pub timestamp: u64,
    pub values: [u8; LogHead::BLOCK],
}

// The pairs of the monitoring map: their positions and their versions, with zeros after them, and
// their number. No heap: the room is fixed (project rule).
// An array of pairs is no plainer: tree::search_tree::next_asked takes the positions as a slice.
#[derive(Clone, Copy)]
pub struct MonitoringMap {
    pub positions: [u64; State::PAIRS],
    pub versions: [u32; State::PAIRS],
    pub count: usize,
}

// The label, the log and the monitoring map.
#[derive(Clone, Copy)]
pub struct State {
    pub label: Label,
    pub log: KeptLog,
    pub map: MonitoringMap,
}

// What a refused call hands back: why it is refused, and a state.
#[derive(Clone, Copy)]
pub struct Refused {
    pub refusal: Refusal,
    pub state: State,
}

impl State {
    // The longest label.
    pub const LABEL: usize = 255;

    // The most pairs.
    pub const PAIRS: usize = 48;

    // The greatest version of a pair.
    pub const GREATEST_VERSION: u32 = u32::MAX - 1;

    // The longest text.
    pub const TEXT: usize = 8192;

    // The state to begin with, for a label; a label that is too long is refused, with the state of
    // the empty one.
    pub fn new(label: &[u8]) -> Result<State, Refused>
        ensures { numbered_of result ≡ numbered_block (new_state label.now) }
    {
        if State::LABEL < label.len() {
            return Err(Refused::with_empty_state(Refusal::Length));
        }
        Ok(State::empty(label))
    }

    // The state of a label with nothing else in it.
    fn empty(label: &[u8]) -> State
        requires { length label.now ≤ label_limit }
        ensures { result ≡ block_of (empty_state label.now) }
    {
        State {
            label: Label::of(label),
            log: KeptLog {
                size: 0,
                timestamp: 0,
                values: [0; LogHead::BLOCK],
            },
            map: MonitoringMap {
                positions: [0; State::PAIRS],
                versions: [0; State::PAIRS],
                count: 0,
            },
        }
    }

    // Whether it is a valid state.
    pub fn is_valid(self) -> bool
        ensures { result ≡ is_some (valid_state (state_of self)) }
    {
        self.label.fits() && self.log.fits() && self.map.fits(self.log.size)
    }
}

impl Refused {
    // Refused, with the state of the empty label.
    pub(crate) fn with_empty_state(refusal: Refusal) -> Refused
        ensures { result ≡ record { refusal = refusal; state = block_of (empty_state []) } }
    {
        Refused {
            refusal,
            state: State::empty(b""),
        }
    }
}

impl Label {
    // The label of these bytes.
    fn of(s: &[u8]) -> Label
        requires { length s.now ≤ label_limit }
        ensures { result ≡ label_block s.now }
    {
        let mut bytes = [0u8; State::LABEL];
        bytes[..s.len()].copy_from_slice(s);
        Label {
            bytes,
            length: s.len(),
        }
    }

    // Whether it is not too long, and zeros follow it.
    fn fits(self) -> bool
        ensures { result ≡ label_fits self }
    {
        if State::LABEL < self.length {
            return false;
        }
        zeros_from(&self.bytes, self.length)
    }
}

impl KeptLog {
    // Whether the size is not too large, the time is zero where the size is, and zeros follow the
    // values.
    fn fits(self) -> bool
        ensures { result ≡ log_fits self }
    {
        let values = self.values;
        let size = self.size;
        if LogHead::LARGEST_SIZE < size {
            return false;
        }
        if !timestamp_fits(size, self.timestamp) {
            return false;
        }
        zeros_from(&values, 32 * u64::count_ones(size) as usize)
    }
}

impl MonitoringMap {
    // Whether there are not too many pairs, zeros follow them, and they are valid under a size.
    fn fits(self, size: u64) -> bool
        ensures { result ≡ map_fits size self }
    {
        if State::PAIRS < self.count {
            return false;
        }
        if !self.zeros_follow() {
            return false;
        }
        self.pairs_fit(size)
    }

    // Whether positions and versions are zero after the pairs.
    fn zeros_follow(self) -> bool
        ensures { result
            ≡ (zeros_from self.count self.positions && zeros_from self.count self.versions) }
    {
        if !self.positions.iter().skip(self.count).all(|x| *x == 0) {
            return false;
        }
        self.versions.iter().skip(self.count).all(|x| *x == 0)
    }

    // Whether the positions rise and are below a size, and no version is too great.
    fn pairs_fit(self, size: u64) -> bool
        requires { self.count ≤ map_limit }
        ensures { result
            ≡ pairs_fit size (take self.count self.positions) (take self.count self.versions) }
    {
        let positions = &self.positions[..self.count];
        let versions = &self.versions[..self.count];
        let mut least: u64 = 0;
        for (&position, &version) in positions.iter().zip(versions) {
            if position < least || size <= position || State::GREATEST_VERSION < version {
                return false;
            }
            least = position + 1;
        }
        true
    }
}

// Whether the time is zero where the size is.
fn timestamp_fits(size: u64, timestamp: u64) -> bool
    ensures { result ≡ (ltb 0 size || eqb timestamp 0) }
{
    0 < size || timestamp == 0
}

// Whether bytes are zero from an offset on.
// The map's numbers have a test of their own: the definition zeros_from is of numbers, and says nothing of a type parameter.
// By hand, and all are looked at: a loop with one way out is compiled to steps of sixteen bytes,
// and `all` is not.
fn zeros_from(s: &[u8], from: usize) -> bool
    ensures { result ≡ zeros_from from s.now }
{
    let mut zeros = true;
    for x in &s[from.min(s.len())..] {
        zeros &= *x == 0;
    }
    zeros
}
