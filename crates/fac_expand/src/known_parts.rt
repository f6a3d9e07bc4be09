//! What running a callable that was put off comes to.
ghost use Rattle.std.specs.Prelude.{◌≡◌, slice_get, Some, IfOk};
ghost use Rattle.fac_expand.specs.inner.Steps.{IsPart, IsCodePart};

use crate::draft::Draft;
use crate::plan::Plan;
use crate::put_off::{Curried, PutOff};
use crate::stopped::Stopped;
use fac_base::{Duplicate, List};

/// What running a callable that was put off comes to.
#[derive(Drop)]
pub enum Part {
    /// The code of a template, under a frame.
    Code {
        /// Its number.
        template: u32,
        /// Its place in the plain code.
        entry: u32,
        /// The cells that are its frame.
        env: List<u32>,
    },
    /// The value of a cell goes onto the stack, and then another callable is run.
    Fetch {
        /// The cell.
        cell: u32,
        /// The number of the callable.
        callable: u32,
    },
    /// A callable goes onto the stack, and then another one is run.
    Under {
        /// The number of the one that is pushed.
        value: u32,
        /// The number of the one that is run.
        callable: u32,
    },
    /// Two are run.
    Both {
        /// The number of the first.
        first: u32,
        /// The number of the second.
        second: u32,
    },
}

impl<'a> Plan<'a> {
    // The code of a template, under these cells.
    fn code_of(&self, template: u32, cells: &List<u32>) -> Result<Part, Stopped>
        ensures { IfOk result (λ part. IsCodePart self.now.plain.now template cells.now part) }
    {
        match self.plain.templates.get(template as usize) {
            Some(row) => Ok(Part::Code {
                template,
                entry: row.entry,
                env: cells.copy(self.alloc)?,
            }),
            None => Err(Stopped::Plain),
        }
    }

    /// What running this callable comes to.
    pub fn part(&self, draft: &Draft, callable: u32) -> Result<Part, Stopped>
        ensures { IfOk result (λ part. IsPart self.now.plain.now draft.now.put_off callable part) }
    {
        match draft.put_off.get(callable as usize) {
            Some(PutOff::Quotation { template, cells }) => self.code_of(*template, cells),
            Some(PutOff::Curry { value, callable }) => match value {
                Curried::Cell(cell) => Ok(Part::Fetch {
                    cell: *cell,
                    callable: *callable,
                }),
                Curried::Off(inner) => Ok(Part::Under {
                    value: *inner,
                    callable: *callable,
                }),
            },
            Some(PutOff::Compose { first, second }) => Ok(Part::Both {
                first: *first,
                second: *second,
            }),
            Some(PutOff::Loop { .. }) => Err(Stopped::Plain),
            None => Err(Stopped::Plain),
        }
    }
}
