//! Laws of formats, each on the contract of a function that does nothing.
ghost use Rattle.fac_spelling.specs.Formats.{Exact, follow};
ghost use Rattle.fac_spelling.specs.Integers.{integer};
ghost use Rattle.fac_spelling.specs.Lists.{counted, ascending, ascending_by, optional};
ghost use Rattle.fac_spelling.specs.Texts.{text};
ghost use Rattle.fac_spelling.specs.Laws.{OneValue, OnePlace, SpelledOrBroken, FrontsAreBroken, NumbersAreExact, FreshNumbersAreExact, FixedBytesAreExact, TextsAreUtf8, Utf8IsText};

use crate::Spelled;

/// No two values have the same bytes.
pub fn one_value<T: Spelled>()
    requires { Exact T.format }
    ensures { OneValue T.format }
{}

/// Bytes are broken at one place only.
pub fn one_place<T: Spelled>()
    ensures { OnePlace T.format }
{}

/// Bytes are a value's, or broken.
pub fn spelled_or_broken<T: Spelled>()
    requires { Exact T.format }
    ensures { SpelledOrBroken T.format }
{}

/// A proper front of a value's bytes is broken at its own length.
pub fn fronts_are_broken<T: Spelled>()
    requires { Exact T.format }
    ensures { FrontsAreBroken T.format }
{}

/// Numbers in a range that isn't empty.
pub fn numbers_are_exact()
    ensures { NumbersAreExact }
{}

/// Numbers that aren't taken, where not all are taken.
pub fn fresh_numbers_are_exact()
    ensures { FreshNumbersAreExact }
{}

/// Integers of 128 bits.
pub fn integers_are_exact()
    ensures { Exact integer }
{}

/// Bytes that are fixed.
pub fn fixed_bytes_are_exact()
    ensures { FixedBytesAreExact }
{}

/// Texts.
pub fn texts_are_exact()
    ensures { Exact text }
{}

/// Lists behind their length.
pub fn lists_are_exact<T: Spelled>()
    requires { Exact T.format }
    ensures { Exact (counted T.format) }
{}

/// Options.
pub fn options_are_exact<T: Spelled>()
    requires { Exact T.format }
    ensures { Exact (optional T.format) }
{}

/// Pairs.
pub fn pairs_are_exact<A: Spelled, B: Spelled>()
    requires first { Exact A.format }
    requires second { Exact B.format }
    ensures { Exact (follow A.format (λ _. B.format)) }
{}

/// Numbers that ascend.
pub fn ascending_numbers_are_exact()
    ensures { Exact ascending }
{}

/// Pairs whose keys ascend.
pub fn ascending_pairs_are_exact<T: Spelled>()
    requires { Exact T.format }
    ensures { Exact (ascending_by T.format) }
{}

/// A text that has a spelling is UTF-8.
pub fn texts_are_utf8()
    ensures { TextsAreUtf8 }
{}

/// UTF-8 of fewer than 2^32 bytes has a spelling.
pub fn utf8_is_text()
    ensures { Utf8IsText }
{}
