//! Which code stands for which phrase, and that the machine ends as the phrase does. It knows no compiler.
#![tactic(auto)]

mod laws;

pub use laws::{code_runs_as_its_phrase, printed_forms_are_equal};
