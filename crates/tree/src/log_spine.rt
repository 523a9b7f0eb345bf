// The walk over the log tree along its right edge (paper 01, Trees): over the last entries of a log,
// by the full subtrees with which they begin.
ghost use Rattle.std.specs.Prelude.{◌≡◌, [], ◌+◌, ◌-◌, ◌<◌, ◌≤◌, length};
ghost use Rattle.std.specs.Int.Count.{ones};
ghost use Rattle.hash.specs.Sha256.{digest_length};
ghost use Rattle.tree.specs.LogHead.{level_limit, known_in};
ghost use Rattle.tree.specs.LogWalk.{range, known_by, nodes_by, Ready, Tail, EdgeFacts, end_on, walked_on};
ghost use Rattle.tree.specs.LogWalk.{Filled, values_from};

use crate::known_log::KnownLog;
use crate::log_head::LogHead;
use crate::log_tree::{Walked, subtree, subtree_end};
use crate::search_tree::power;
use crate::walk_cursor::WalkCursor;

// What the entries from start on up to tree_size are, which begin with a full subtree of so many as
// width: that alone, the next node, or that and more, in two.
#[derive(Clone, Copy)]
pub enum Edge {
    Block,
    Node,
    Cut,
}

// Which of these, where one of the entries is shown or none is.
fn edge_at(kept_size: u64, tree_size: u64, start: u64, width: u64, shown: bool) -> Edge
    requires { start + width ≤ tree_size }
    ensures { EdgeFacts kept_size tree_size start width shown result }
{
    if start + width == tree_size {
        return Edge::Block;
    }
    if shown {
        return Edge::Cut;
    }
    if kept_size <= start {
        Edge::Node
    } else {
        Edge::Cut
    }
}

// Puts a value into a block of values.
// A block is bytes and no array of values: the clauses of log_head name its bytes.
fn put_value(block: &mut [u8; LogHead::BLOCK], i: usize, value: [u8; 32])
    requires { i < level_limit }
    ensures { (length value ≡ digest_length)
        × Filled i block.old block.new value }
{
    let at = LogHead::VALUE * i;
    block[at..at + LogHead::VALUE].copy_from_slice(&value);
}

// The walk over the entries from start on up to tree_size. The values of the full subtrees of all
// entries that are among them go into a block, after so many others.
// A block with a count beside it: the project has no heap.
pub(crate) fn spine(
    log: &KnownLog<'_>,
    tree_size: u64,
    start: u64,
    cursor: &WalkCursor,
    block: &mut [u8; LogHead::BLOCK],
    count: usize,
) -> Walked
    requires tail { Tail tree_size start × Ready log.now.text.now log.now.kept_size start cursor.now
        × (log.now.kept_size ≤ tree_size) }
    requires room { count + ones (tree_size - start) ≤ level_limit }
    ensures value { result ≡ walked_on log.now.text.now (known_by log.now) (nodes_by log.now) cursor.now.node
        (range start (tree_size - start)) }
    ensures filled { Filled count block.old block.new
        (values_from tree_size (known_by log.now) (nodes_by log.now) start cursor.now.node) }
{
    let width = power(tree_size - start);
    match edge_at(
        log.kept_size,
        tree_size,
        start,
        width,
        cursor.is_before(tree_size),
    ) {
        Edge::Block => {
            let whole = subtree(log, start, width, cursor);
            let value = whole.value;
            put_value(block, count, value);
            whole
        }
        Edge::Node => {
            let given = log.next_node(cursor);
            let value = given.value;
            put_value(block, count, value);
            given
        }
        Edge::Cut => {
            let left = subtree(log, start, width, cursor);
            let value = left.value;
            put_value(block, count, value);
            let next = start + width;
            let middle = left.cursor;
            let right = spine(log, tree_size, next, &middle, block, count + 1);
            log.joined(start, width, left, tree_size - next, right)
        }
    }
}

// The same walk for where it ends alone.
// Beside spine, for the reason given at subtree_end.
pub(crate) fn spine_end(
    text: &[u8],
    kept_size: u64,
    tree_size: u64,
    start: u64,
    cursor: WalkCursor,
) -> WalkCursor
    requires { Tail tree_size start × Ready text.now kept_size start cursor
        × (kept_size ≤ tree_size) }
    ensures { result ≡ end_on text.now (known_in text.now kept_size [])
        cursor.node (range start (tree_size - start)) }
{
    let width = power(tree_size - start);
    match edge_at(
        kept_size,
        tree_size,
        start,
        width,
        cursor.is_before(tree_size),
    ) {
        Edge::Block => subtree_end(text, kept_size, start, width, cursor),
        Edge::Node => cursor.past_node(),
        Edge::Cut => {
            let middle = subtree_end(text, kept_size, start, width, cursor);
            spine_end(text, kept_size, tree_size, start + width, middle)
        }
    }
}
