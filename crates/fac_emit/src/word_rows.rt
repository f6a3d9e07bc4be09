//! The rows of words.
ghost use Rattle.std.specs.Prelude.{◌≡◌};
ghost use Rattle.fac_emit.specs.ProgramCode.{code_place};

use fac_base::List;
use fac_code::{Action, WordRow};

/// The place of a word's code.
pub fn place_of(rows: &List<WordRow>, word: u32) -> u32
    ensures { result ≡ code_place rows.now word }
{
    match rows.get(word as usize) {
        Some(row) => match row.action {
            Action::Code(place) => place,
            _ => 0,
        },
        None => 0,
    }
}
