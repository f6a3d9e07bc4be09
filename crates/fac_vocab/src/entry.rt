//! One name of a vocabulary.
use fac_base::Text;

/// A name that a vocabulary holds.
#[derive(Drop)]
pub struct Entry {
    pub vocab: Text,
    pub name: Text,
    /// The number of its word.
    pub word: u32,
    /// Whether it is defined, or only deferred.
    pub is_defined: bool,
}
