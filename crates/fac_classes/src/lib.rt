//! Classes: which kinds each has, and their order.
#![tactic(auto)]

mod built_ins;
mod cells;
mod classes;
mod kind_table;
mod laws;
mod order;
mod own_kinds;
mod own_marks;
mod shapes;
mod slots;
mod unions;
mod visits;

pub use classes::Classes;
pub use laws::{narrower_classes_come_first, one_class_comes_first, places_tell_order};
