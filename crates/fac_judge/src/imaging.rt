//! The image of an accepted program.
ghost use Rattle.std.specs.Prelude.{IfOk};
ghost use Rattle.fac_check.specs.Judged.{StandsForWhole};
ghost use Rattle.fac_judge.specs.TextImages.{AreEffectsIfAsked, IsMadeOf};

use fac_base::{Height, List, Memory};
use fac_check::effects;
use fac_code::Image;
use fac_emit::{asks_effects, compile};
use fac_locals::Closed;
use fac_par::{Gate, Workers};
use std::thread::Threads;

// The effects of a program's templates where it asks for any, and none where it doesn't.
fn asked_effects<R: Threads + Sync, G>(
    workers: &Workers<'_, R, G>,
    closed: &Closed,
) -> Result<List<Option<Height>>, Memory>
    requires { StandsForWhole closed.now }
    ensures { IfOk result (AreEffectsIfAsked closed.now) }
{
    if !asks_effects(closed) {
        return Ok(List::new(workers.alloc));
    }
    let heights = effects(workers, closed)?;
    Ok(heights)
}

// The image of a closed program whose templates have these effects.
fn image_with<R: Threads + Sync, G: Gate + Sync>(
    workers: &Workers<'_, R, G>,
    closed: &Closed,
    heights: &[Option<Height>],
) -> Result<Image, Memory>
    requires stands { StandsForWhole closed.now }
    requires effects { AreEffectsIfAsked closed.now heights.now }
    ensures { IfOk result (IsMadeOf closed.now) }
{
    compile(workers, closed, heights)
}

/// The image of a closed program, which these workers make. The gate is told of each word by its number. Want of memory is the one error.
pub fn image_of<R: Threads + Sync, G: Gate + Sync>(
    workers: &Workers<'_, R, G>,
    closed: &Closed,
) -> Result<Image, Memory>
    requires { StandsForWhole closed.now }
    ensures { IfOk result (IsMadeOf closed.now) }
{
    let heights = asked_effects(workers, closed)?;
    image_with(workers, closed, heights.as_slice())
}
