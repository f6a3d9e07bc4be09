//! Where the values on a stack come from, as the checker's walk knows it, and by which callables and inline words it came to an item. `specs/Traced.antt` is
//! the walk of `fac_check` with this beside it. Laws, with no code.
#![tactic(auto)]

mod laws;
mod origin;

pub use laws::{origins_stand_beside_marks, traces_are_verdicts, walks_without_origins};
pub use origin::{Entry, Origin};
