//! What code is made of, and how.
use fac_code::Image;
use std::alloc::Global;

/// What a use of a word becomes.
#[derive(Clone, Copy, Debug, PartialEq, Eq)]
pub enum Use {
    /// A call of its code, or its phrase in place where that is small.
    Called,
    /// Its phrase, in place.
    InPlace,
    /// A call of code of its own, where something is put off, and else a call of its code.
    Specialised,
    /// The same, of `kernel:loop`.
    Loop,
    /// The same, of `kernel:while`.
    While,
    /// Its phrase, in place, of `kernel:until`.
    Until,
}

/// What code is made of, and how.
#[derive(Clone, Copy)]
pub struct Plan<'a> {
    /// Where memory is taken.
    pub alloc: Global,
    /// The plain image.
    pub plain: &'a Image,
    /// By the number of a word, what a use of it becomes.
    pub uses: &'a [Use],
    /// Whether the making stops where something can't be put off. Otherwise that is noted, and the making goes on to find more, and promises nothing.
    pub strict: bool,
    /// The place of the first instruction.
    pub base: u32,
}
