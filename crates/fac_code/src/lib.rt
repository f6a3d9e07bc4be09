//! Images: the code of a program, as the machine runs it.
#![tactic(auto)]

mod image;
mod instr_row;
mod lookups;
mod making;
mod method_numbers;
mod names;
mod references;

pub use image::{
    Action, Elem, GenericRow, Image, Instr, KindRow, MethodRow, Tables, TemplateRow, WordRow,
};
pub use instr_row::{INSTR_COUNT, InstrRow, Operand, Referent};
pub use names::TrapWhy;
