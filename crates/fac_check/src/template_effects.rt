//! The effects of templates.
ghost use Rattle.std.specs.Prelude.{◌≡◌, ◌<◌, length, map, IfOk};
ghost use Rattle.fac_rows.specs.NumberedRows.{row_entry};
ghost use Rattle.fac_check.specs.Judged.{StandsForWhole};
ghost use Rattle.fac_check.specs.TemplateEffects.{AreEffects, IsEffect, within_outs};

use crate::pieces::template_pieces;
use crate::searching::least;
use fac_base::limits::MOST_CALLABLE_VALUES;
use fac_base::{Height, List, Memory};
use fac_locals::Closed;
use fac_par::{NoGate, Workers, map_pieces};
use fac_rows::RowWords;
use std::alloc::Global;
use std::thread::Threads;

// A height, where no more values are left than a callable may leave.
fn within(height: Height) -> Option<Height>
    ensures { result ≡ within_outs height.outs height }
{
    match height.outs {
        None => Some(height),
        Some(outs) => {
            if outs as u64 > MOST_CALLABLE_VALUES {
                return None;
            }
            Some(height)
        }
    }
}

/// That of the template with this number.
pub fn effect(
    alloc: Global,
    closed: &Closed,
    rows: &RowWords,
    template: u32,
) -> Result<Option<Height>, Memory>
    requires stands { StandsForWhole closed.now }
    requires rows { rows.now.entries ≡ map row_entry closed.now.program.words }
    requires template { template < length closed.now.templates }
    ensures { IfOk result (IsEffect closed.now template) }
{
    match least(alloc, closed, rows, template)? {
        Some(height) => Ok(within(height)),
        None => Ok(None),
    }
}

/// The effects of the templates, in their order: of each callable that a template makes, whatever values it holds for what it captures and for
/// its holes, the least number of inputs up to 1,024 from which its phrase breaks no rule of the checker, and how many values it leaves then.
/// None where there is no such number, or where more than a million values are left. Each is found by a few walks of its phrase. They are the same
/// for every number of workers, and no gate is told of them.
pub fn effects<R: Threads + Sync, G>(
    workers: &Workers<'_, R, G>,
    closed: &Closed,
) -> Result<List<Option<Height>>, Memory>
    requires { StandsForWhole closed.now }
    ensures { IfOk result (AreEffects closed.now) }
{
    let rows = RowWords::new(workers.alloc, &closed.program.words)?;
    let pieces = template_pieces(workers.alloc, closed, &rows)?;
    let untold = Workers {
        threads: workers.threads,
        alloc: workers.alloc,
        count: workers.count,
        gate: &NoGate,
    };
    map_pieces(&untold, pieces.as_slice())
}
