//! Values that have a spelling.
ghost use Rattle.std.specs.Prelude.{length};
ghost use Rattle.fac_spelling.specs.Formats.{each};
ghost use Rattle.fac_spelling.specs.Numbers.{number32};
ghost use Rattle.fac_spelling.specs.Integers.{integer};

/// A number of 32 bits has a spelling. A row behind a reference doesn't tell a proof that its numbers have 32 bits, and a call of this at a
/// field does.
pub fn number_fits(_number: u32)
    ensures { number32.Fits _number }
{}

/// Numbers of 32 bits have a spelling.
pub fn numbers_fit(numbers: &[u32])
    ensures { (each (length numbers.now) number32).Fits numbers.now }
{}

/// An integer of 128 bits has a spelling.
pub fn integer_fits(_integer: i128)
    ensures { integer.Fits _integer }
{}
