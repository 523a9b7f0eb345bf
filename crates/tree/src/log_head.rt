// The head of a log (paper 01, Trees).
ghost use Rattle.std.specs.Prelude.{◌≡◌, [], length};
ghost use Rattle.tree.specs.LogText.{shown_in, nodes_in};
ghost use Rattle.tree.specs.LogHead.{block_length, positions, known_in, is_walkable, head_with, log_head};
ghost use Rattle.tree.specs.LogHead.{has_size, nodes_asked};
ghost use Rattle.tree.specs.LogWalk.{rising_below};

use crate::known_log::KnownLog;
use crate::log_spine::{spine, spine_end};
use crate::log_text::{entry_from, next_line, position_at};
use crate::walk_cursor::WalkCursor;
use lines::layout::Layout;

// Its root, and whether the kept values were met. No Option: log_head tells the root also where they
// were not, and its clause result_after holds it.
#[derive(Clone, Copy)]
pub struct LogHead {
    pub root: [u8; 32],
    pub met: bool,
}

impl LogHead {
    // The levels of the largest log, and so the most full subtrees that a log has.
    pub const LEVELS: u32 = 40;

    // The entries of the largest log.
    pub const LARGEST_SIZE: u64 = 1 << LogHead::LEVELS;

    // The bytes of a value.
    pub const VALUE: usize = 32;

    // The bytes of as many values as there are levels.
    pub const BLOCK: usize = LogHead::VALUE * LogHead::LEVELS as usize;
}

// Whether the shown positions rise and are below the size.
// A loop over offsets: an iterator over entry lines would need a contract of its own, no plainer.
fn rising_below(text: &[u8], tree_size: u64) -> bool
    ensures { result ≡ rising_below tree_size (positions (shown_in text.now)) }
{
    let mut least: u64 = 0;
    let mut at: usize = entry_from(text, 0);
    while at < text.len() {
        let position = position_at(text, at + Layout::ENTRY);
        if position < least {
            return false;
        }
        if tree_size <= position {
            return false;
        }
        least = position + 1;
        at = entry_from(text, next_line(text, at));
    }
    true
}

// Whether the size of a log is neither 0 nor too large, nor below the kept one.
pub fn has_size(tree_size: u64, kept_size: u64) -> bool
    ensures { result ≡ has_size tree_size kept_size }
{
    0 < tree_size && tree_size <= LogHead::LARGEST_SIZE && kept_size <= tree_size
}

// Whether there is a walk over so many entries: the log has that size, and the shown entries rise
// and are in it.
fn walkable(text: &[u8], tree_size: u64, kept_size: u64) -> bool
    ensures { result ≡ is_walkable tree_size (known_in text.now kept_size []) }
{
    has_size(tree_size, kept_size) && rising_below(text, tree_size)
}

// The head of a log of tree_size entries, of which a text shows some: kept are the values of the
// full subtrees of its first kept_size entries, and the node lines give the other values. The
// values of the full subtrees of all entries, left to right and zeros after them, go into the block
// lent.
pub fn log_head(
    text: &[u8],
    nodes: &[u8],
    tree_size: u64,
    kept_size: u64,
    kept: &[u8; LogHead::BLOCK],
    values: &mut [u8; LogHead::BLOCK],
) -> LogHead
    ensures result_after { head_with values.new result
        ≡ log_head tree_size (known_in text.now kept_size kept.now)
        (nodes_in nodes.now) }
    ensures values_len { length values.new ≡ block_length }
{
    *values = [0u8; LogHead::BLOCK];
    if walkable(text, tree_size, kept_size) {
        let cursor = WalkCursor::from(text, 0, 0);
        let log = KnownLog {
            text,
            nodes,
            kept_size,
            kept,
        };
        let top = spine(&log, tree_size, 0, &cursor, values, 0);
        let root = top.value;
        return LogHead { root, met: top.met };
    }
    let root = [0u8; 32];
    LogHead { root, met: false }
}

// The number of nodes that the walk takes; 0 where there is no walk.
// 0 for none, as the definition nodes_asked has it, which the clause names.
pub fn nodes_asked(text: &[u8], tree_size: u64, kept_size: u64) -> u64
    ensures { result ≡ nodes_asked tree_size (known_in text.now kept_size []) }
{
    if walkable(text, tree_size, kept_size) {
        let cursor = WalkCursor::from(text, 0, 0);
        let end = spine_end(text, kept_size, tree_size, 0, cursor);
        return end.node as u64;
    }
    0
}
