//! What a text of a session comes to, judged behind the texts before: its forms, its verdict and its image.
#![tactic(auto)]

mod imaging;
mod judging;
mod known_texts;
mod laws;
mod meaning;
mod reading;

pub use imaging::image_of;
pub use judging::{Judged, judge};
pub use known_texts::{NoNext, SessionFault, first_known, known_behind, next_known};
pub use laws::{every_text_is_a_source, known_behind_texts_is_known, one_known, one_source};
pub use meaning::{Accepted, Meaning, meaning_of, program_of};
pub use reading::{Unread, forms_of};
