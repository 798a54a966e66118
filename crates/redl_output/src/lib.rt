//! What nodes become: their text on a sink, and copies of them.
//! Its tests are in `redl_tree_tests`.
#![tactic(auto)]

mod copy;
mod write;

pub use copy::{copy_node, copy_nodes};
pub use write::{write_close, write_nodes, write_open};
