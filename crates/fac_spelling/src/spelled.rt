//! Types whose values are spelled as bytes.
ghost use Rattle.std.specs.Prelude.{◌≡◌, ◌++◌, Bool, OnOk};
ghost use Rattle.fac_spelling.specs.Formats.{Format, follow};
ghost use Rattle.fac_spelling.specs.Numbers.{number32};
ghost use Rattle.fac_spelling.specs.Reads.{Gives};

use crate::{ReadFault, read_number, write_number};
use fac_base::{Bytes, Memory};
use std::alloc::Global;

/// A type whose values are spelled as bytes.
pub trait Spelled {
    ghost format: { Format Self };

    /// The value at the front, and the bytes behind it.
    fn read(alloc: Global, bytes: &[u8]) -> Result<(Self, &[u8]), ReadFault>
        ensures { Gives (λ x. (x.0, x.1.now)) result (format.read bytes.now) };
}

/// A type whose values write their bytes.
pub trait Writes: Spelled {
    /// Adds the value's bytes at the end. Want of memory is the one error, and some of the bytes may be added then.
    fn write(&self, out: &mut Bytes) -> Result<(), Memory>
        requires { Self.format.Fits self.now }
        ensures { OnOk result (out.new ≡ out.old ++ Self.format.spell self.now) };
}

/// A type whose values have a rule besides their spelling.
pub trait Ruled: Spelled {
    ghost rule: { Self → Bool };

    /// Whether the value keeps the rule.
    fn keeps(&self) -> bool
        ensures { result ≡ rule self.now };
}

impl Spelled for u32 {
    ghost format = { number32 };

    fn read(_alloc: Global, bytes: &[u8]) -> Result<(u32, &[u8]), ReadFault> {
        read_number(bytes, 0, u32::MAX)
    }
}

impl Writes for u32 {
    fn write(&self, out: &mut Bytes) -> Result<(), Memory> {
        write_number(out, u128::from(*self))
    }
}

impl<A: Spelled + Drop, B: Spelled + Drop> Spelled for (A, B) {
    ghost format = { follow A.format (λ _. B.format) };

    fn read(alloc: Global, bytes: &[u8]) -> Result<((A, B), &[u8]), ReadFault> {
        let (first, rest) = A::read(alloc, bytes)?;
        let (second, rest) = B::read(alloc, rest)?;
        Ok(((first, second), rest))
    }
}

#[tactic(auto, using(std::proofs::lemmas::List::append_assoc))]
impl<A: Writes + Drop, B: Writes + Drop> Writes for (A, B) {
    fn write(&self, out: &mut Bytes) -> Result<(), Memory> {
        self.0.write(out)?;
        self.1.write(out)
    }
}
