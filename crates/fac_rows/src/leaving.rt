//! What an effect leaves on a stack.
ghost use Rattle.std.specs.Prelude.{◌≡◌, IfOk};
ghost use Rattle.fac_base.specs.EffectView.{outs_leaving};
ghost use Rattle.fac_abs.specs.MarkTrees.{Naming};
ghost use Rattle.fac_abs.specs.SeenMarks.{IsStack, IsReached, Grows, base_seen, stack_of, reached_seen};
ghost use Rattle.fac_rows.specs.RowBinding.{leaving_on};

use fac_abs::{Marks, Reached};
use fac_base::{Memory, Outs};

/// The stack with the outputs on it, or none where the effect never returns.
pub fn leave(
    marks: &mut Marks,
    outs: &Outs,
    base: Option<u32>,
    stack: u32,
) -> Result<Reached, Memory>
    requires { IsStack marks.old stack }
    ensures grows { Grows marks.old marks.new }
    ensures there { IfOk result (λ A. IsReached marks.new A) }
    ensures leaves { IfOk result (λ A. (N : Naming) → reached_seen N marks.new A ≡ leaving_on (outs_leaving outs.now) (base_seen N base) (stack_of N marks.old stack)) }
{
    match outs {
        Outs::Never => Ok(Reached::Dead),
        Outs::Left { names, .. } => Ok(Reached::On {
            base,
            stack: marks.unknowns(stack, names.len() as u64)?,
        }),
    }
}
