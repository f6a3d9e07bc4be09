//! The text of `gen`.
ghost use Rattle.std.specs.Prelude.{IfOk};
ghost use Rattle.fac_tool.specs.inner.Drawings.{IsDrawn};

use fac_base::{Bytes, List, Memory};
use fac_gen::generate;
use std::alloc::Global;

/// A text that was drawn, alone in a list, and how many bytes it has.
#[derive(Drop)]
pub struct Drawn {
    pub texts: List<Bytes>,
    pub bytes: u64,
}

/// The text of so many words that are drawn from a seed.
pub fn draw(alloc: Global, seed: u32, words: u32) -> Result<Drawn, Memory>
    ensures { IfOk result (IsDrawn seed words) }
{
    let text = generate(alloc, seed, words)?;
    let bytes = text.len() as u64;
    let mut texts = List::new(alloc);
    texts.push(text)?;
    Ok(Drawn { texts, bytes })
}
