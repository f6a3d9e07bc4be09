//! Laws of images as bytes, each on the contract of a function that does nothing.
ghost use Rattle.fac_spelling.specs.Formats.{Exact};
ghost use Rattle.fac_spelling.specs.Laws.{FrontsAreBroken, OnePlace, SpelledOrBroken};
ghost use Rattle.fac_bytes.specs.ImageBytes.{image as image_format};
ghost use Rattle.fac_bytes.specs.Laws.{OneImage, EncodedIsDecoded, DecodedIsEncoded, SpelledAreSpellable};

/// Reading images is exact.
pub fn images_are_exact()
    ensures { Exact image_format }
{}

/// No two images have the same bytes.
pub fn one_image()
    ensures { OneImage }
{}

/// An image's bytes are those of its parts and of no others, so `decode` gives it back.
pub fn encoded_is_decoded()
    ensures image { EncodedIsDecoded }
    ensures alone { DecodedIsEncoded }
{}

/// An image that bytes spell can be encoded.
pub fn spelled_are_spellable()
    ensures { SpelledAreSpellable }
{}

/// A proper front of an image's bytes is broken at its own length.
pub fn fronts_are_broken()
    ensures { FrontsAreBroken image_format }
{}

/// Bytes are broken at one place only.
pub fn one_place()
    ensures { OnePlace image_format }
{}

/// Bytes are those of tables and code, or broken.
pub fn spelled_or_broken()
    ensures { SpelledOrBroken image_format }
{}
