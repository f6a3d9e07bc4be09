//! What a walk comes to.

/// A stack as the checker knows it.
#[derive(Clone, Copy)]
pub enum Reached {
    /// There is none, behind something that never returns.
    Dead,
    /// The stack of this number on a base.
    On {
        /// The number of a row of the word that is checked. Where there is none, nothing is said of what lies below.
        base: Option<u32>,
        /// The number of the stack.
        stack: u32,
    },
}
