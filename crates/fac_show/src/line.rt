//! A line that stays within a limit.
ghost use Rattle.std.specs.Prelude.{string_bytes};
ghost use Rattle.fac_show.specs.inner.Adding.{Adds};

use crate::ShowFault;

/// Adds a piece to a line, where it then has at most so many bytes.
pub fn add(line: &mut String, limit: usize, piece: &str) -> Result<(), ShowFault>
    ensures { Adds limit (string_bytes line.old) piece.now (string_bytes line.new) result }
{
    if line.len() > limit || piece.len() > limit - line.len() {
        return Err(ShowFault::TooLong);
    }
    match line.push_str(piece) {
        Ok(()) => Ok(()),
        Err(_) => Err(ShowFault::Memory),
    }
}
