// Where the walk over the log tree stands (paper 01, Trees).
ghost use Rattle.std.specs.Prelude.{◌≡◌, ◌<◌, ◌≤◌, ◌^◌, ltb, length};
ghost use Rattle.tree.specs.LogText.{next_line};
ghost use Rattle.tree.specs.LogHead.{level_limit};
ghost use Rattle.tree.specs.LogWalk.{cursor_from, past_node, position_of};

use crate::log_text::{entry_from, next_line, position_at};
use lines::layout::Layout;

// Where the walk stands: where the next shown entry's line begins, or the text's end, and its
// position, if one is left; and how many nodes are passed.
#[derive(Clone, Copy)]
pub struct WalkCursor {
    pub at: usize,
    pub position: Option<u64>,
    pub node: usize,
}

impl WalkCursor {
    // The first entry line from a line's start on comes next, and so many nodes are passed.
    pub(crate) fn from(text: &[u8], start: usize, node: usize) -> WalkCursor
        ensures { result ≡ cursor_from text.now start node }
    {
        let at = entry_from(text, start);
        if at < text.len() {
            let position = Some(position_at(text, at + Layout::ENTRY));
            return WalkCursor { at, position, node };
        }
        WalkCursor {
            at,
            position: None,
            node,
        }
    }

    // Whether the next shown entry stands before some entry.
    pub(crate) fn is_before(self, end: u64) -> bool
        ensures { result ≡ ltb (position_of self.position) end }
    {
        self.position.is_some_and(|position| position < end)
    }

    // One shown entry more passed.
    pub(crate) fn past_entry(self, text: &[u8]) -> WalkCursor
        requires { self.at < length text.now }
        ensures { result ≡ cursor_from text.now (next_line text.now self.at)
            self.node }
    {
        WalkCursor::from(text, next_line(text, self.at), self.node)
    }

    // One node more passed.
    pub(crate) fn past_node(self) -> WalkCursor
        requires { self.node ≤ 2 ^ level_limit }
        ensures { result ≡ past_node self }
    {
        WalkCursor {
            at: self.at,
            position: self.position,
            node: self.node + 1,
        }
    }
}
