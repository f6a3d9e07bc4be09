//! The least number of inputs with which the phrase of a template breaks no rule. What it finds with some inputs it finds with more, so the
//! number is looked for between one that breaks a rule and one that doesn't.
ghost use Rattle.std.specs.Prelude.{◌≡◌, ◌<◌, ◌≤◌, length, map, IfOk};
ghost use Rattle.fac_rows.specs.NumberedRows.{row_entry};
ghost use Rattle.fac_check.specs.Judged.{StandsForWhole};
ghost use Rattle.fac_check.specs.inner.Searching.{IsLeast};

use crate::walk_template;
use fac_base::limits::MOST_TRIED_INPUTS;
use fac_base::{Height, Memory};
use fac_locals::Closed;
use fac_rows::RowWords;
use std::alloc::Global;

// The number of inputs that is tried next, where each below the first breaks a rule, and the second doesn't, or is too great. Up to the first
// that doesn't break one, each is twice the one before; then it is the middle.
fn tried(low: u32, high: u32, any: bool) -> u32
    requires low { low < high }
    requires high { high ≤ 1025 }
    ensures from { low ≤ result }
    ensures below { result < high }
{
    if any {
        return low + (high - low) / 2;
    }
    if low < 2 {
        return low;
    }
    let doubled = low + (low - 2);
    if doubled < high { doubled } else { high - 1 }
}

/// The height with the least number of inputs up to 1,024 with which the phrase of the template with this number, walked by itself, breaks no
/// rule. None where it breaks one with each.
pub fn least(
    alloc: Global,
    closed: &Closed,
    rows: &RowWords,
    template: u32,
) -> Result<Option<Height>, Memory>
    requires stands { StandsForWhole closed.now }
    requires rows { rows.now.entries ≡ map row_entry closed.now.program.words }
    requires template { template < length closed.now.templates }
    ensures { IfOk result (IsLeast closed.now template) }
{
    let mut low = 0;
    let mut high = MOST_TRIED_INPUTS + 1;
    let mut found: Option<Height> = None;
    'narrowing: while low < high {
        let inputs = tried(low, high, found.is_some());
        match walk_template(alloc, closed, rows, template, inputs)? {
            Some(height) => {
                high = inputs;
                found = Some(Height {
                    ins: inputs,
                    outs: height.outs,
                });
            }
            None => low = inputs + 1,
        }
    }
    Ok(found)
}
