//! Code that is being made, with what is known at its end.
use crate::entries::Entries;
use crate::growing::Growing;
use crate::put_off::PutOff;
use fac_code::Instr;

/// Code that is being made, with what is known at its end.
#[derive(Drop)]
pub struct Draft {
    /// The instructions.
    pub code: Growing<Instr>,
    /// How many ticks are owed: those of items that have no instruction.
    pub owed: u32,
    /// What is known of the values of the stack. Below the last one all are on the machine's stack.
    pub stack: Entries,
    /// The callables that were put off, by their numbers.
    pub put_off: Growing<PutOff>,
    /// How many cells the frame has.
    pub cells: u32,
}
