//! Cells of the frame that nothing names any more where code goes on to its end.
ghost use Rattle.std.specs.Prelude.{◌≡◌, OnOk};
ghost use Rattle.fac_expand.specs.inner.Loops.{Shrinks, TellsCells, TellsRow, TellsRows};

use crate::draft::Draft;
use crate::growing::Growing;
use crate::plan::Plan;
use crate::put_off::{Curried, PutOff};
use crate::stopped::Stopped;
use fac_base::List;

// How many rows are looked at to see which cells they name.
const MOST_ROWS: usize = 256;

// Whether the cells of a quotation are among the first ones, so many.
fn are_cells_below(cells: &List<u32>, count: u32) -> bool
    ensures { TellsCells count cells.now result }
{
    for index in 0..cells.len() {
        match cells.get(index as usize) {
            Some(cell) => {
                if *cell < count {
                    continue;
                }
                return false;
            }
            None => return false,
        }
    }
    true
}

// Whether a row names the first cells alone, so many.
fn is_row_below(row: &PutOff, count: u32) -> bool
    ensures { TellsRow count row.now result }
{
    match row {
        PutOff::Quotation { cells, .. } => are_cells_below(cells, count),
        PutOff::Curry { value, .. } => match value {
            Curried::Cell(cell) => *cell < count,
            Curried::Off(_) => true,
        },
        PutOff::Compose { .. } => true,
        PutOff::Loop { cells, .. } => *cells <= count,
    }
}

// Whether all rows do.
fn are_rows_below(rows: &Growing<PutOff>, count: u32) -> bool
    ensures { TellsRows count rows.now result }
{
    for index in 0..rows.len() {
        match rows.get(index) {
            Some(row) => match is_row_below(row, count) {
                true => {}
                false => return false,
            },
            None => return false,
        }
    }
    true
}

// How many cells a row needs, as far as it can be told. Nothing is promised of it.
fn needed_by(row: &PutOff) -> u32 {
    match row {
        PutOff::Quotation { cells, .. } => {
            let mut most = 0;
            for cell in cells.as_slice() {
                if *cell >= most {
                    most = cell.saturating_add(1);
                }
            }
            most
        }
        PutOff::Curry { value, .. } => match value {
            Curried::Cell(cell) => cell.saturating_add(1),
            Curried::Off(_) => 0,
        },
        PutOff::Compose { .. } => 0,
        PutOff::Loop { cells, .. } => *cells,
    }
}

// How many cells all rows need.
fn needed_by_all(rows: &[PutOff]) -> u32 {
    let mut count = 0;
    for row in rows {
        count = needed_by(row).max(count);
    }
    count
}

impl<'a> Plan<'a> {
    /// Before code that goes on to its end under this frame the cells are dropped that nothing names which was put off.
    pub fn shrink(&self, draft: &mut Draft) -> Result<(), Stopped>
        ensures shrinks { OnOk result (Shrinks draft.old draft.new) }
        ensures owed { OnOk result (draft.new.owed ≡ draft.old.owed) }
    {
        if draft.cells == 0 || draft.put_off.len() > MOST_ROWS {
            return Ok(());
        }
        let count = needed_by_all(draft.put_off.as_slice());
        if count >= draft.cells {
            return Ok(());
        }
        match are_rows_below(&draft.put_off, count) {
            true => self.drop_cells(draft, count),
            false => Ok(()),
        }
    }
}
