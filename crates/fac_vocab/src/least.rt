//! The least two of some entries.

/// The first two entries by the byte order of their full names, by their numbers.
#[derive(Clone, Copy)]
pub enum Least {
    Nothing,
    One(u32),
    Two(u32, u32),
}
