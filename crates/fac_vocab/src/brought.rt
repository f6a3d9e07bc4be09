//! What forms bring beside used vocabularies.
use fac_base::Text;

/// What a `FROM:` or a `QUALIFIED-WITH:` brought.
#[derive(Drop)]
pub enum Brought {
    /// A name, and its word as it was then.
    Named(Text, u32),
    /// All names of a vocabulary behind a prefix and a colon, also those that it gets later: the vocabulary and the prefix.
    Prefixed(Text, Text),
}
