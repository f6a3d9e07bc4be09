//! What the parts of a form are, where they stand.

/// What a name is of, where it stands.
#[derive(Clone, Copy, Debug)]
pub enum Naming {
    /// Of anything.
    Any,
    /// Of a class: `t` and `f` are names there.
    Class,
}

/// What the inputs of an effect are, where it stands.
#[derive(Clone, Copy, Debug)]
pub enum Taking {
    /// Values.
    Values,
    /// Locals, whose names don't end in `!`.
    Locals,
}

/// What marks are of.
#[derive(Clone, Copy, Debug)]
pub enum Marked {
    /// Of a word: `inline` and `recursive`.
    Word,
    /// Of a method: `inline`.
    Method,
}
