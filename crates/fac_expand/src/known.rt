//! What code knows of the values of the stack.
/// What code knows of a value of the stack.
#[derive(Clone, Copy, Debug, PartialEq, Eq)]
pub enum Entry {
    /// Nothing but that it is on the machine's stack.
    Here,
    /// It is a callable that was put off, with this number among those.
    Off(u32),
}
