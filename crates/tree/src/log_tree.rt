// The walk over the log tree (paper 01, Trees): from the root down, by subtrees whose width falls
// at each call.
ghost use Rattle.std.specs.Prelude.{◌≡◌, true, cond, [], ◌+◌, ◌<◌, ◌≤◌, ◌^◌, eqb};
ghost use Rattle.tree.specs.LogTree.{is_full, kept_value, agrees, shown};
ghost use Rattle.tree.specs.LogHead.{level_limit, known_in};
ghost use Rattle.tree.specs.LogWalk.{range, known_by, nodes_by, position_of, Ready, Whole, Halves};
ghost use Rattle.tree.specs.LogWalk.{SourceFacts, walked_by, end_on, walked_on, node_next, parent_by};
ghost use Rattle.tree.specs.LogWalk.{compared_by};

use crate::known_log::KnownLog;
use crate::log_text::{leaf_at, node_at, stored_at};
use crate::walk_cursor::WalkCursor;
use hash::strings::digest_66;
use lines::layout::Layout;

// How a subtree is worked out: its value is kept, or is the next node; it is a shown entry, or has
// two halves.
#[derive(Clone, Copy)]
pub enum Source {
    Retained,
    Given,
    Shown,
    Parent,
}

// Whether a whole block is a full subtree of kept_size entries: the last one of its width, and the
// left one of its pair.
// Start and width stay numbers: Whole has their level, which the invariant of a struct would hide.
fn is_full(kept_size: u64, start: u64, width: u64) -> bool
    requires { Whole start width }
    ensures { result ≡ is_full kept_size (range start width) }
{
    let number = start / width;
    kept_size / width == number + 1 && number % 2 == 0
}

// The step at a whole block, in which something is shown or not.
fn source_at(kept_size: u64, start: u64, width: u64, shown: bool) -> Source
    requires { Whole start width }
    ensures { SourceFacts shown kept_size (range start width) result }
{
    if shown {
        return if width == 1 {
            Source::Shown
        } else {
            Source::Parent
        };
    }
    if is_full(kept_size, start, width) {
        return Source::Retained;
    }
    if kept_size <= start {
        return Source::Given;
    }
    if start + width <= kept_size {
        Source::Given
    } else {
        Source::Parent
    }
}

// What the walk over a subtree yields: its value, where the walk then stands, and whether the kept
// values were met.
// No Option by met: the value goes on up also where a kept one differs, and log_head tells the root.
#[derive(Clone, Copy)]
pub struct Walked {
    pub value: [u8; 32],
    pub cursor: WalkCursor,
    pub met: bool,
}

// The byte before a child's value in its parent's string: 0x00 where the child is a leaf, 0x01
// where it is a parent (001, 10.8).
fn content_mark(width: u64) -> u8
    ensures { result ≡ cond (eqb width 1) 0 1 }
{
    if width == 1 { 0x00 } else { 0x01 }
}

impl KnownLog<'_> {
    // The kept value of a full subtree: before it stand those of wider ones.
    fn kept_value(&self, start: u64, width: u64) -> [u8; 32]
        requires { Whole start width × (is_full self.now.kept_size (range start width) ≡ true) }
        ensures { result ≡ kept_value (known_by self.now) (range start width) }
    {
        stored_at(
            self.kept,
            (self.kept_size / (2 * width)).count_ones() as usize,
        )
    }

    // Whether a value that was worked out is the one that is kept, if one is.
    fn is_met(&self, start: u64, width: u64, value: [u8; 32]) -> bool
        requires { Whole start width }
        ensures { result ≡ agrees (known_by self.now) (range start width) value }
    {
        if is_full(self.kept_size, start, width) {
            let v = self.kept_value(start, width);
            return value == v;
        }
        true
    }

    // The same of a parent: only of a whole block, whose halves are equal, a value is kept.
    fn is_parent_met(&self, start: u64, half: u64, rest: u64, value: [u8; 32]) -> bool
        requires { Halves self.now.kept_size start half rest }
        ensures { result ≡ agrees (known_by self.now) (range start (half + rest)) value }
    {
        if rest == half {
            return self.is_met(start, half + rest, value);
        }
        true
    }

    // The next node. This step and the next stay out of the frames of the walk's recursion.
    #[inline(never)]
    pub(crate) fn next_node(&self, cursor: &WalkCursor) -> Walked
        requires { cursor.now.node ≤ 2 ^ level_limit }
        ensures { result ≡ node_next (nodes_by self.now) cursor.now }
    {
        let value = node_at(self.nodes, cursor.node);
        Walked {
            value,
            cursor: cursor.past_node(),
            met: true,
        }
    }

    // A shown entry, which the cursor is at.
    #[inline(never)]
    pub(crate) fn shown_entry(&self, start: u64, cursor: &WalkCursor) -> Walked
        requires { Ready self.now.text.now self.now.kept_size start cursor.now × (start < 2 ^ level_limit)
            × (position_of cursor.now.position < start + 1) }
        ensures { result ≡ walked_by self.now.text.now (known_by self.now) []
            (start + 1) cursor.now.node (shown start) }
    {
        let value = leaf_at(self.text, cursor.at + Layout::ENTRY);
        let met = self.is_met(start, 1, value);
        let next = cursor.past_entry(self.text);
        Walked {
            value,
            cursor: next,
            met,
        }
    }

    // A parent, of its left child of half as many entries as a block and its right child of the
    // rest, compared with its kept value, if there is one.
    pub(crate) fn joined(
        &self,
        start: u64,
        half: u64,
        left: Walked,
        rest: u64,
        right: Walked,
    ) -> Walked
        requires { Halves self.now.kept_size start half rest }
        ensures { result ≡ compared_by (known_by self.now) (range start (half + rest))
            (parent_by half left rest right) }
    {
        let l = left.value;
        let r = right.value;
        let value = digest_66(content_mark(half), l, content_mark(rest), r);
        let met = self.is_parent_met(start, half, rest, value);
        Walked {
            value,
            cursor: right.cursor,
            met: met & (left.met & right.met),
        }
    }
}

// The walk over a whole block.
pub(crate) fn subtree(log: &KnownLog<'_>, start: u64, width: u64, cursor: &WalkCursor) -> Walked
    requires { Whole start width × Ready log.now.text.now log.now.kept_size start cursor.now }
    ensures { result ≡ walked_on log.now.text.now (known_by log.now) (nodes_by log.now) cursor.now.node
        (range start width) }
{
    match source_at(log.kept_size, start, width, cursor.is_before(start + width)) {
        Source::Retained => {
            let value = log.kept_value(start, width);
            Walked {
                value,
                cursor: *cursor,
                met: true,
            }
        }
        Source::Given => log.next_node(cursor),
        Source::Shown => log.shown_entry(start, cursor),
        Source::Parent => {
            let half = width / 2;
            let left = subtree(log, start, half, cursor);
            let middle = left.cursor;
            let right = subtree(log, start + half, half, &middle);
            log.joined(start, half, left, half, right)
        }
    }
}

// The same walk for where it ends alone.
// Beside subtree: a trait of what a walk yields would need a contract for each step, no plainer. Text and
// kept size are no KnownLog here: nodes_asked is given neither nodes nor kept values.
pub(crate) fn subtree_end(
    text: &[u8],
    kept_size: u64,
    start: u64,
    width: u64,
    cursor: WalkCursor,
) -> WalkCursor
    requires { Whole start width × Ready text.now kept_size start cursor }
    ensures { result ≡ end_on text.now (known_in text.now kept_size [])
        cursor.node (range start width) }
{
    match source_at(kept_size, start, width, cursor.is_before(start + width)) {
        Source::Retained => cursor,
        Source::Given => cursor.past_node(),
        Source::Shown => cursor.past_entry(text),
        Source::Parent => {
            let half = width / 2;
            let middle = subtree_end(text, kept_size, start, half, cursor);
            subtree_end(text, kept_size, start + half, half, middle)
        }
    }
}
