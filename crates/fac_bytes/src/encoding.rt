//! An image as bytes.
ghost use Rattle.std.specs.Prelude.{◌≡◌, ◌++◌, IfOk, OnOk};
ghost use Rattle.fac_bytes.specs.Spellable.{IsSpellable};
ghost use Rattle.fac_spelling.specs.Whole.{Spells};
ghost use Rattle.fac_bytes.specs.ImageBytes.{image as image_format, parts_of};
ghost use Rattle.fac_bytes.specs.Answers.{IsLength};

use crate::counting::length_of;
use crate::part::{list_fits, write_list};
use crate::parts::FIRST_BYTES;
use crate::tables::{tables_fit, write_tables};
use fac_base::{Bytes, Memory};
use fac_code::Image;
use fac_spelling::{number_fits, write_fixed, write_number};
use std::alloc::Global;

// An image has a spelling.
fn image_fits(image: &Image)
    requires { IsSpellable image.now }
    ensures { image_format.Fits (parts_of image.now) }
{
    tables_fit(image);
    list_fits(&image.code);
    number_fits(image.start);
}

// Adds an image's bytes.
#[tactic(auto, using(crate::proofs::Written::row_four))]
fn write(image: &Image, out: &mut Bytes) -> Result<(), Memory>
    requires { image_format.Fits (parts_of image.now) }
    ensures { OnOk result (out.new ≡ out.old ++ image_format.spell (parts_of image.now)) }
{
    write_fixed(&FIRST_BYTES, out)?;
    write_tables(image, out)?;
    write_list(&image.code, out)?;
    write_number(out, u128::from(image.start))
}

/// The image's bytes. Want of memory is the one error.
pub fn encode(alloc: Global, image: &Image) -> Result<Bytes, Memory>
    requires { IsSpellable image.now }
    ensures { IfOk result (λ bytes. Spells image_format bytes (parts_of image.now)) }
{
    image_fits(image);
    let mut bytes = Bytes::new(alloc);
    write(image, &mut bytes)?;
    Ok(bytes)
}

/// How many bytes `encode` would answer, which aren't made: the memory that this takes is that of the largest part of the image, as a text or
/// an instruction. Want of memory is the one error.
pub fn spelled_length(alloc: Global, image: &Image) -> Result<u64, Memory>
    requires { IsSpellable image.now }
    ensures { IfOk result (IsLength image.now) }
{
    image_fits(image);
    let length = length_of(alloc, image)?;
    Ok(length)
}
