//! The trees of several texts, which are read at once by several threads.
#![tactic(auto)]

mod parts;
mod pieces;
mod text_tree;

pub use parts::parts_of;
pub use pieces::trees_of;
pub use text_tree::{TextTree, tree_of};
