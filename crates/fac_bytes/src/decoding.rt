//! The image of bytes.
ghost use Rattle.std.specs.Prelude.{◌≡◌};
ghost use Rattle.fac_spelling.specs.Whole.{Spells, SpellsBy, IsRefused};
ghost use Rattle.fac_bytes.specs.declared.parts.ImageParts.{ImageParts as Parts};
ghost use Rattle.fac_bytes.specs.ImageBytes.{image as image_format, are_image, parts_of};
ghost use Rattle.fac_bytes.specs.Answers.{IsFound, IsOnly, IsPlace};

use crate::parts::ImageParts;
use fac_code::Image;
use fac_spelling::{WholeFault, read_all};
use std::alloc::Global;
use thiserror::Error;

/// Why bytes are no image's.
#[derive(Clone, Copy, Debug, PartialEq, Eq, Error)]
pub enum DecodeFault {
    /// Memory ran out.
    #[error("out of memory")]
    Memory,
    /// `at` is the first byte with which no image's bytes go on, counted from 0. It is the number of bytes where more are missing, or where
    /// a number names nothing of its kind.
    #[error("byte {at} is no image's")]
    BadImage { at: usize },
}

/// The image that all of the bytes spell.
pub fn decode(alloc: Global, bytes: &[u8]) -> Result<Image, DecodeFault>
    // What is found is spelled so.
    ensures found { IsFound result (λ M. Spells image_format bytes.now (parts_of M)) }
    // What is spelled so and is an image is found, unless memory runs out.
    ensures only { (P : Parts) → SpellsBy image_format are_image bytes.now P → IsOnly result P }
    // Bytes that are refused are no image's, and wrong from this place on.
    ensures place { IsPlace result (λ at. IsRefused image_format are_image bytes.now at) }
{
    match read_all::<ImageParts>(alloc, bytes) {
        Err(WholeFault::Memory) => Err(DecodeFault::Memory),
        Err(WholeFault::Broken { at }) => Err(DecodeFault::BadImage { at }),
        Ok(parts) => match Image::new(alloc, parts.tables, parts.code, parts.start) {
            Some(image) => Ok(image),
            None => Err(DecodeFault::BadImage { at: bytes.len() }),
        },
    }
}
