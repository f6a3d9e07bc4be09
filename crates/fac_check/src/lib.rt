//! The stack checker: it refuses every program in which an item could take more values than are there, or a word could leave another
//! number of values than its effect declares, or another row.
#![tactic(auto)]

mod accepted;
mod checker;
mod doing;
mod judge;
mod laws;
mod pieces;
mod recursion;
mod refusal;
mod searching;
mod subject;
mod template_effects;
mod template_walk;
mod walker;

pub use accepted::Checked;
pub use checker::Verdict;
pub use fac_abs::Rule;
pub use fac_rows::RowWords;
pub use judge::{accept, check_word, check_words, first_refused, gather};
pub use laws::{
    accepted_programs_are_safe, first_refusal_is_verdict, marks_below_stay,
    safe_programs_are_not_stuck,
};
pub use recursion::undeclared_words;
pub use refusal::{Broken, Refusal};
pub use template_effects::effects;
pub use template_walk::walk_template;
