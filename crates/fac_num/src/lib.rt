//! Integers of 128 bits: read from a text, written, and computed with.
#![tactic(auto)]

mod arith;
mod read;
mod sign;
mod write;

pub use arith::{add, mul, quot, rem, shl, sub};
pub use read::{NumFault, read_int};
pub use write::write_int;
