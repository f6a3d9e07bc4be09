//! Names as they stand in sources.
use fac_base::{Place, Text};

/// A name, as its token spells it, and where that token stands.
#[derive(Debug, Drop)]
pub struct Tok {
    pub text: Text,
    pub place: Place,
}

/// A name that was searched.
#[derive(Debug, Drop)]
pub struct Ref {
    pub tok: Tok,
    /// The number of its word, where it finds one.
    pub word: Option<u32>,
}
