//! The effect of the row word that is checked.
ghost use Rattle.std.specs.Prelude.{◌≡◌};
ghost use Rattle.fac_rows.specs.NumberedRows.{numbered as numbered_rows};

use fac_base::Effect;

/// The effect of the row word that is checked, with its rows named as it names them, and by their numbers.
#[derive(Clone, Copy)]
pub struct OwnEffect<'a> {
    /// The effect.
    pub effect: &'a Effect,
    /// The effect with its rows named by their numbers.
    pub numbered: &'a Effect,
    ghost same: { numbered.now ≡ numbered_rows effect.now },
}
