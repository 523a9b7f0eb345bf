// The tree layer: binary ladder, search tree, log tree, prefix tree.
#![tactic(auto)]

mod known_log;
pub mod ladder;
pub mod log_head;
mod log_spine;
pub mod log_text;
mod log_tree;
pub mod prefix_tree;
pub mod search_tree;
mod walk_cursor;
