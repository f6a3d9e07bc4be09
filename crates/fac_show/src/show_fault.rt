//! What a printed form can't be.

/// Why there is no printed form.
#[derive(Clone, Copy, Debug, PartialEq, Eq)]
pub enum ShowFault {
    /// It has more bytes than the limit.
    TooLong,
    /// Memory was wanted.
    Memory,
}
