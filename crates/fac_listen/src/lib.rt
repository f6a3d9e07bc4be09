//! The listener on the lines of an input: a session from its first line to its end, with its notes.
#![tactic(auto)]

mod heard;
mod hearing;
mod listening;
mod telling;

pub use heard::Heard;
pub use listening::listen;
