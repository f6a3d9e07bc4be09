//! What an image is made of.
use crate::part::read_list;
use crate::tables::read_tables;
use fac_base::List;
use fac_code::{Instr, Tables};
use fac_spelling::{ReadFault, Spelled, read_fixed, read_number};
use std::alloc::Global;

/// The bytes with which all images begin: `FCI1`.
pub const FIRST_BYTES: [u8; 4] = [0x46, 0x43, 0x49, 0x31];

/// Tables and code, whose numbers may name nothing.
#[derive(Drop)]
pub struct ImageParts {
    /// The tables.
    pub tables: Tables,
    /// The instructions.
    pub code: List<Instr>,
    /// The place of the first instruction.
    pub start: u32,
}

impl Spelled for ImageParts {
    ghost use Rattle.fac_bytes.specs.ImageBytes.{image};

    ghost format = { image };

    fn read(alloc: Global, bytes: &[u8]) -> Result<(ImageParts, &[u8]), ReadFault> {
        let rest = read_fixed(bytes, &FIRST_BYTES)?;
        let (tables, rest) = read_tables(alloc, rest)?;
        let (code, rest) = read_list(alloc, rest)?;
        let (start, rest) = read_number(rest, 0, u32::MAX)?;
        Ok((
            ImageParts {
                tables,
                code,
                start,
            },
            rest,
        ))
    }
}
