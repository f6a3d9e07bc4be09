//! What a cell of a frame holds.

/// What a cell of a frame holds.
#[derive(Clone, Copy, Debug, PartialEq, Eq)]
pub enum Cell {
    /// The value of the local of this number.
    Local(u32),
    /// The value of this hole of the fry around.
    Hole(u32),
}
