//! An integer of 128 bits that stands at a multiple of 8, which contracts see as the integer.
ghost use Rattle.std.specs.Prelude.{◌≡◌};

use std::marker::Model;

/// An integer of 128 bits. It stands at a multiple of 8, where an `i128` would stand at one of 16, so what has one has no gaps.
#[derive(Clone, Copy, Debug, PartialEq, Eq)]
pub struct Integer {
    // The upper and the lower half of its bits.
    high: u64,
    low: u64,
}

impl Model for Integer {
    ghost use lib.IntN.{ℤ};
    ghost use Rattle.std.specs.Coded.{coded_ℤ};

    ghost Value = { ℤ };

    ghost coded = { coded_ℤ };

    ghost use Rattle.fac_base.specs.inner.IntegerHalves.{halves, of_halves, AreHalves, halves_back};

    ghost view = { of_halves };

    ghost invariant = { AreHalves };

    ghost inverse = { halves };

    ghost inverse_ok = { halves_back };
}

impl Integer {
    /// An integer.
    pub fn new(value: i128) -> Self
        ensures { result ≡ value }
    {
        let bits = value.cast_unsigned();
        Integer {
            high: (bits / 18446744073709551616) as u64,
            low: (bits % 18446744073709551616) as u64,
        }
    }

    /// Its value.
    pub fn get(self) -> i128
        ensures { result ≡ self }
    {
        (self.high as u128 * 18446744073709551616 + self.low as u128).cast_signed()
    }
}
