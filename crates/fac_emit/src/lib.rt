//! Compilation of closed programs to images.
#![tactic(auto)]

mod arrays;
mod asked;
mod compiler;
mod dispatch;
mod emission;
mod emitter;
mod numbers;
mod pieces;
mod placing;
mod sequence;
mod tables;
mod texts;
mod word_rows;

pub use asked::asks_effects;
pub use compiler::compile;
