//! What the checker knows of values and stacks, and the rules that it tests.
#![tactic(auto)]

mod frame_nodes;
mod mark_node;
mod mark_nodes;
mod reached;
mod rule;
mod stack_nodes;
mod table;

pub use mark_node::MarkNode;
pub use reached::Reached;
pub use rule::Rule;
pub use table::{Marks, same_base};
