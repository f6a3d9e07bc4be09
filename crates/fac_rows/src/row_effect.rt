//! What is made once of the effect of a row word.

use fac_base::Effect;

/// What uses of a row word need of its effect, so that none of them compares its rows by their names.
#[derive(Drop)]
pub struct RowEffect {
    /// The effect with its rows named by their numbers.
    pub numbered: Effect,
    /// Whether the rows of the effect can be bound at a use.
    pub bindable: bool,
}
