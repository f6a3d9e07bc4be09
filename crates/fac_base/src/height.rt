//! How many values something takes and leaves.

/// How many values something takes, and how many it leaves in their place.
#[derive(Clone, Copy, Debug, PartialEq, Eq)]
pub struct Height {
    /// The number of values that it takes.
    pub ins: u32,
    /// The number of values that it leaves, or None where it never returns.
    pub outs: Option<u32>,
}
