//! Reading a source: its tokens to a tree.
#![tactic(auto)]

mod context;
mod form_parts;
mod laws;
mod levels;
mod parser;
mod reader;
mod run;

pub use laws::{
    items_nest, literals_nest, one_nesting, one_place, one_tree, some_place, tree_or_none,
};
pub use parser::Parser;
pub use reader::{ParseFault, Why};
