//! Work on the pieces of a list by several threads, with the results in the order of the list.
#![tactic(auto)]

mod mapping;
mod piece;
mod workers;

pub use mapping::map_pieces;
pub use piece::{Gate, NoGate, Piece};
pub use workers::Workers;
