//! What names and items mean in the words of the language: what a name finds, and which phrase a form's items come to. Laws, with no code.
#![tactic(auto)]

mod laws;

pub use laws::{
    forms_define_names, forms_mean_what_is_bound_or_found, items_mean_as_they_stand,
    names_are_found, names_keep_words, phrases_are_written_as_items, programs_run_their_forms,
};
