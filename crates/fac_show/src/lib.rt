//! The printed form of a value.
#![tactic(auto)]

mod escaping;
mod line;
mod show_fault;
mod shown;

pub use show_fault::ShowFault;
pub use shown::show;
