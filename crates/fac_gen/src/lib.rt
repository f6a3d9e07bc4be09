//! The generator: programs of as many words as are wanted, which are drawn from a seed.
#![tactic(auto)]

mod draws;
mod texts;

pub use texts::generate;
