//! The lines of a source, one after another, and the channels of a run.
#![tactic(auto)]

mod channels;
mod cutting;
mod line_fault;
mod lines;
mod piece;
mod reading;

pub use channels::Channels;
pub use line_fault::LineFault;
pub use lines::Lines;
