//! Broken rules and refusals.
use fac_abs::Rule;
use fac_base::Place;

/// A broken rule, and where.
#[derive(Clone, Copy, Debug, PartialEq, Eq)]
pub struct Broken {
    /// The rule, with its numbers.
    pub rule: Rule,
    /// The place of the item that breaks the rule, or of the word's name where the rule says so.
    pub place: Place,
}

/// A refused word, with the first rule that it breaks.
#[derive(Clone, Copy, Debug, PartialEq, Eq)]
pub struct Refusal {
    /// The number of the word.
    pub word: u32,
    /// The rule, and where.
    pub broken: Broken,
}
