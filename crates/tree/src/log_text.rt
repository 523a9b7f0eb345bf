// Log entries and values where they stand in a text (paper 01, Response lines).
ghost use Rattle.std.specs.Prelude.{◌≡◌, ◌+◌, ◌*◌, ◌/◌, ◌≤◌, ◌<◌, length, take, drop, get_or};
ghost use Rattle.hash.specs.Sha256.{sha256};
ghost use Rattle.lines.specs.Line.{before, after, tab};
ghost use Rattle.lines.specs.Layout.{value_digits};
ghost use Rattle.tree.specs.LogTree.{log_leaf_string, zeros};
ghost use Rattle.tree.specs.LogText.{number_in, value_in, values_in, entry_in, next_line, entry_offsets};
ghost use Rattle.tree.specs.LogText.{nodes_in};
ghost use Rattle.tree.specs.LogHead.{level_limit};

use crate::log_head::LogHead;
use hash::strings::digest_40;
use lines::hex::read_digest;
use lines::layout::Layout;
use lines::line::{line_end, span};
use lines::number::read_number;

// The value whose digits stand at an offset, or zeros.
// Zeros for none, as value_in has it, which the clause names.
pub fn value_at(s: &[u8], at: usize) -> [u8; 32]
    ensures { result ≡ value_in (take value_digits (drop at s.now)) }
{
    let Some(rest) = s.get(at..) else {
        return [0u8; 32];
    };
    let Some(digits) = rest.get(..Layout::DIGITS) else {
        return [0u8; 32];
    };
    read_digest(digits).unwrap_or([0u8; 32])
}

// The position of the entry whose fields stand at an offset.
pub fn position_at(text: &[u8], offset: usize) -> u64
    ensures { result ≡ (entry_in (drop offset text.now)).position }
{
    number_at(text, offset)
}

// Its time.
pub fn timestamp_at(text: &[u8], offset: usize) -> u64
    ensures { result ≡ (entry_in (drop offset text.now)).timestamp }
{
    number_at(text, after_tab(text, offset))
}

// Its prefix root.
pub fn prefix_root_at(text: &[u8], offset: usize) -> [u8; 32]
    ensures { result ≡ (entry_in (drop offset text.now)).prefix_root }
{
    let timestamp = after_tab(text, offset);
    value_at(text, after_tab(text, timestamp))
}

// The value of its leaf (001, 10.8).
pub(crate) fn leaf_at(text: &[u8], offset: usize) -> [u8; 32]
    ensures { result ≡ sha256 (log_leaf_string (entry_in (drop offset text.now))) }
{
    digest_40(timestamp_at(text, offset), prefix_root_at(text, offset))
}

// Where the line after that at an offset begins.
pub(crate) fn next_line(text: &[u8], at: usize) -> usize
    requires { at < length text.now }
    ensures { result ≡ next_line text.now at }
{
    line_end(text, at) + 1
}

// Where the first entry line from a line's start on begins, or the text's end where there is none.
// The end and no Option: the walk's cursor and the loops over entry lines go on from an offset. A loop over
// offsets: an iterator over entry lines would need a contract of its own, no plainer.
pub(crate) fn entry_from(text: &[u8], start: usize) -> usize
    ensures { result ≡ get_or (entry_offsets text.now start) 0 (length text.now) }
{
    let mut at: usize = start;
    while at < text.len() {
        if text[at] == Layout::ENTRY_LETTER {
            return at;
        }
        at = next_line(text, at);
    }
    text.len()
}

// The value whose digits stand at an offset of line i, where a text is lines of one length; zeros
// where there are not so many lines.
// Zeros for none, as node_at and sibling_at have it.
fn value_in_line(text: &[u8], line_length: usize, offset: usize, i: usize) -> [u8; 32]
    requires { offset < line_length }
    ensures some { i < length text.now / line_length
        → result ≡ value_in (take value_digits (drop (line_length * i + offset) text.now)) }
    ensures none { length text.now / line_length ≤ i → result ≡ zeros }
{
    if i < text.len() / line_length {
        value_at(text, line_length * i + offset)
    } else {
        [0u8; 32]
    }
}

// The value of a node line, or zeros where there are not so many.
// Zeros for none, as the definition value of LogTree has it.
pub(crate) fn node_at(nodes: &[u8], i: usize) -> [u8; 32]
    ensures { result ≡ get_or (nodes_in nodes.now) i zeros }
{
    value_in_line(nodes, Layout::NODE_LINE, Layout::NODE, i)
}

// A sibling, or zeros where there are not so many.
// Zeros for none: lookup_root asks only for siblings that are there; an Option gives it a case that never applies.
pub(crate) fn sibling_at(siblings: &[u8], i: usize) -> [u8; 32]
    ensures { result ≡ get_or (values_in siblings.now) i zeros }
{
    value_in_line(siblings, Layout::DIGITS, 0, i)
}

// A value of a block of values.
// A block is bytes and no array of values: the clauses of log_head name its bytes.
pub(crate) fn stored_at(block: &[u8; LogHead::BLOCK], i: usize) -> [u8; 32]
    requires { i < level_limit }
    ensures { result ≡ take 32 (drop (32 * i) block.now) }
{
    let mut value = [0u8; 32];
    let at = LogHead::VALUE * i;
    value.copy_from_slice(&block[at..at + LogHead::VALUE]);
    value
}

// The number of 64 bits between an offset and the next tab, or 0.
// 0 for none, as number_in has it, which the clause names.
fn number_at(text: &[u8], at: usize) -> u64
    ensures { result ≡ number_in (before tab (drop at text.now)) }
{
    if text.len() < at {
        return 0;
    }
    let stop = span(text, at, b'\t');
    read_number(&text[at..stop], u64::MAX).unwrap_or(0)
}

// The offset after the next tab, or the end where there is none.
fn after_tab(text: &[u8], at: usize) -> usize
    ensures { drop result text.now ≡ after tab (drop at text.now) }
{
    let stop = span(text, at, b'\t');
    if stop < text.len() {
        stop + 1
    } else {
        text.len()
    }
}
