//! Directed graphs, given as lists of numbers: which nodes lead back to themselves.
#![tactic(auto)]

mod components;
mod laws;
mod slots;

pub use components::leading_back;
pub use laws::{cycles_of_classes, short_paths_suffice};
pub use slots::slot_counts;
