//! What a call inside a row word comes to.

use fac_abs::{Reached, Rule};

/// What the own recursive call of a row word comes to, or a call of one of its quotation inputs.
#[derive(Clone, Copy)]
pub enum Called {
    /// It breaks this rule.
    Breaks(Rule),
    /// It leaves this stack, or never returns.
    Leaves(Reached),
}
