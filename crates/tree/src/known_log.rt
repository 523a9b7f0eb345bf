// What is known of a log before the walk over it.
ghost use Rattle.std.specs.Prelude.{◌≤◌, ◌^◌};
ghost use Rattle.tree.specs.LogHead.{level_limit};

use crate::log_head::LogHead;

// The text that shows some of its entries, its node lines, and the values of the full subtrees of
// its first kept_size entries, from the front of a block.
#[derive(Clone, Copy)]
pub(crate) struct KnownLog<'a> {
    pub text: &'a [u8],
    pub nodes: &'a [u8],
    pub kept_size: u64,
    pub kept: &'a [u8; LogHead::BLOCK],
    ghost kept_bound: { kept_size ≤ 2 ^ level_limit },
}
