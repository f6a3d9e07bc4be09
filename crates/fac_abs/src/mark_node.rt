//! The forms of marks.

/// What a mark is, where its parts are marks by their numbers.
#[derive(Clone, Copy, Debug, PartialEq, Eq, Hash)]
pub enum MarkNode {
    /// Nothing is known of the value.
    Any,
    /// The literal with this template, and the frame with the marks of its cells.
    Lit(u32, u32),
    /// What `curry` made: of which value, and of which callable.
    Cur(u32, u32),
    /// What `compose` made: of which callables, the first to run first.
    Com(u32, u32),
    /// The word with this number.
    Wrd(u32),
    /// The input with this number of the row word that is checked.
    Par(u32),
}
