//! Callables that were put off, and the loops in whose code a draft stands.
use crate::entries::Entries;
use fac_base::List;

/// A value that is curried onto a callable that was put off.
#[derive(Clone, Copy)]
pub enum Curried {
    /// It is in this cell of the frame.
    Cell(u32),
    /// It is itself a callable that was put off, with this number.
    Off(u32),
}

/// A callable that was put off: nothing of it is on the machine's stack. Beside them stand the loops in whose code a draft is.
#[derive(Drop)]
pub enum PutOff {
    /// One of a template, which keeps what is in these cells of the frame.
    Quotation {
        /// The number of the template.
        template: u32,
        /// The cells of the frame, in the order in which the template captures.
        cells: List<u32>,
    },
    /// What `curry` makes.
    Curry {
        /// The value.
        value: Curried,
        /// The number of the callable.
        callable: u32,
    },
    /// What `compose` makes.
    Compose {
        /// The number of the callable that runs first.
        first: u32,
        /// The number of the one that runs behind it.
        second: u32,
    },
    /// No callable, but a loop in whose code this stands: code of its own for a word at the callables that were put off where it is used.
    Loop {
        /// The number of the word.
        word: u32,
        /// The place of the code.
        place: u32,
        /// The stack there.
        stack: Entries,
        /// How many cells the frame has there.
        cells: u32,
    },
}
