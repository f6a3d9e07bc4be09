//! Texts: UTF-8 behind its length in bytes.
ghost use Rattle.std.specs.Prelude.{◌≡◌};
ghost use Rattle.fac_spelling.specs.Texts.{text};

use crate::{ReadFault, Spelled, Writes, read_characters, read_number, write_number};
use fac_base::{Bytes, Memory, Text};
use std::alloc::Global;

impl Spelled for Text {
    ghost format = { text };

    fn read(alloc: Global, bytes: &[u8]) -> Result<(Text, &[u8]), ReadFault> {
        let (size, rest) = read_number(bytes, 0, u32::MAX)?;
        let (characters, rest) = read_characters(rest, size as usize)?;
        Ok((Text::from_str(alloc, characters)?, rest))
    }
}

#[tactic(auto, using(crate::proofs::TextLaws::text_written))]
impl Writes for Text {
    fn write(&self, out: &mut Bytes) -> Result<(), Memory> {
        write_number(out, self.len() as u128)?;
        out.extend(self.as_bytes())?;
        Ok(())
    }
}
