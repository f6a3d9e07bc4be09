//! What an element of items stands in.

/// What elements stand directly in.
#[derive(Clone, Copy, Debug)]
pub enum Around {
    /// The items of a quotation, or those in which everything else stands.
    Items,
    /// The items of a fry.
    Fry,
    /// An array, which has so many elements.
    Array(u32),
}

/// What counts where an element stands.
#[derive(Clone, Copy, Debug)]
pub struct Context {
    pub around: Around,
    /// How many locals are in scope. None where no local may be bound, for there is no definition or quotation with locals around.
    pub locals: Option<usize>,
    /// How many holes the fry around has so far. None where there is none, or an array is between.
    pub holes: Option<u32>,
}
