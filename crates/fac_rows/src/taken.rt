//! The inputs of a row word, off the stack.

/// The marks of a word's inputs, and what lies below them, as stacks by their numbers.
#[derive(Clone, Copy)]
pub struct TakenInputs {
    /// The marks of the inputs, where the deepest input is on top.
    pub inputs: u32,
    /// What lies below the inputs.
    pub rest: u32,
}
