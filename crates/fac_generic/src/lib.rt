//! Generic words: the methods of each, in the order of their classes, and which of them a kind has.
#![tactic(auto)]

mod laws;
mod making;
mod method_tables;
mod rows;

pub use laws::methods_are_lawful;
pub use making::tables;
pub use method_tables::Tables;
