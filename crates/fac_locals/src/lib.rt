//! Closing: quotations and fries become numbered templates, locals and holes cells of frames.
#![tactic(auto)]

mod asking;
mod cell;
mod closing;
mod counting;
mod keeping;
mod laws;
mod numbers;

pub use asking::{AllAsked, Asked, asked_in};
pub use cell::Cell;
pub use closing::{Closed, close};
pub use keeping::{Kept, keep, number_of};
pub use laws::closed_programs_open;
