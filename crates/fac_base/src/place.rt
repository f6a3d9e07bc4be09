//! Places in the source.

/// Where something stands in the source.
#[derive(Clone, Copy, Debug, PartialEq, Eq)]
pub struct Place {
    /// The number of the file, which is 0 for the prelude and counts the files of a command from 1.
    pub file: u32,
    /// The number of the token in its file, from 1.
    pub token: u32,
}
