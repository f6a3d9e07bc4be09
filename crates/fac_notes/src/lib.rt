//! What is told of a call: the reports of refusals and failures, the notes that tell them, and the names of words in these. No file is read
//! and no program runs here, so every command and the listener can tell what they came to by it.
#![tactic(auto)]

mod laws;
mod line;
mod note_table;
mod report;
pub mod status;
mod visible;
mod word_names;

pub use laws::notes_are_not_empty;
pub use line::note;
pub use report::{ByteFault, Report};
pub use word_names::{name_in_image, word_name};
