//! The end of the files: what only then is known of words and classes, and the program.
#![tactic(auto)]

mod class_faults;
mod class_table;
mod draft;
mod effects;
mod ending;
mod finishing;
mod gathered;
mod graph;
mod lines;
mod lookup;
mod methods;
mod parents;
mod slot_faults;
mod word_faults;

pub use draft::{Draft, Late, Named, NewClass};
pub use effects::{inputs, no_effect, one_output, plain_effect, texts};
pub use ending::ended;
pub use gathered::Gathered;
