//! Cells of one frame as cells of another.
ghost use Rattle.std.specs.Prelude.{◌≡◌, Some, IfOk};
ghost use Rattle.fac_expand.specs.inner.Calls.{cells_in};

use crate::stopped::Stopped;
use fac_base::List;
use std::alloc::Global;

/// The cells of the frame that these cells of the plain frame are, which is in these cells itself.
pub fn mapped(alloc: Global, cells: &[u32], env: &[u32]) -> Result<List<u32>, Stopped>
    ensures { IfOk result (λ real. cells_in env.now cells.now ≡ Some real) }
{
    let mut real: List<u32> = List::new(alloc);
    for cell in cells {
        match env.get(*cell as usize) {
            Some(place) => real.push(*place)?,
            None => return Err(Stopped::Plain),
        }
    }
    Ok(real)
}
