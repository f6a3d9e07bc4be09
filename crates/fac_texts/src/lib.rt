//! The texts of an image, which the store of its run has too.
#![tactic(auto)]

mod shared_texts;

pub use shared_texts::SharedTexts;
