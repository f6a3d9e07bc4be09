//! Parts of an image: values that are spelled as bytes, and lists of them.
ghost use Rattle.std.specs.Prelude.{◌≡◌, ◌++◌, length, true, OnOk};
ghost use Rattle.std.specs.List.{list_all};
ghost use Rattle.fac_spelling.specs.Formats.{Format, each};
ghost use Rattle.fac_spelling.specs.Lists.{counted};
ghost use Rattle.fac_spelling.specs.Reads.{Gives};

use fac_base::{Bytes, List, Memory};
use fac_spelling::{ReadFault, read_number, write_number};
use std::alloc::Global;

/// A part of an image that writes its bytes.
pub trait Writable {
    ghost use Rattle.std.specs.Prelude.{Bool};

    ghost format: { Format Self };

    // What it keeps so that it has a spelling, beside that its numbers and lists have the sizes of their types.
    ghost keeps: { Self → Bool };

    /// Such a part has a spelling.
    fn fits(&self)
        requires { keeps self.now ≡ true }
        ensures { format.Fits self.now };

    /// Adds the part's bytes at the end. Want of memory is the one error, and some of the bytes may be added then.
    fn write(&self, out: &mut Bytes) -> Result<(), Memory>
        requires { format.Fits self.now }
        ensures { OnOk result (out.new ≡ out.old ++ format.spell self.now) };
}

/// A part that is read as it is written, whatever stands before it.
pub trait Part: Writable {
    /// The part at the front, and the bytes behind it.
    fn read(alloc: Global, bytes: &[u8]) -> Result<(Self, &[u8]), ReadFault>
        ensures { Gives (λ x. (x.0, x.1.now)) result (Self.format.read bytes.now) };
}

// So many parts one behind another, as in fac_spelling, whose trait is another one. The list grows as they are read, so a wrong count takes no more
// memory than the bytes.
fn read_each<T: Part + Drop>(
    alloc: Global,
    count: u32,
    bytes: &[u8],
) -> Result<(List<T>, &[u8]), ReadFault>
    ensures { Gives (λ x. (x.0, x.1.now)) result ((each count T.Writable.format).read bytes.now) }
{
    let mut values = List::new(alloc);
    let mut rest = bytes;
    for _ in 0..count {
        let (value, after) = T::read(alloc, rest)?;
        values.push(value)?;
        rest = after;
    }
    Ok((values, rest))
}

/// The parts at the front, behind their count, and the bytes behind them.
pub fn read_list<T: Part + Drop>(alloc: Global, bytes: &[u8]) -> Result<(List<T>, &[u8]), ReadFault>
    ensures { Gives (λ x. (x.0, x.1.now)) result ((counted T.Writable.format).read bytes.now) }
{
    let (count, rest) = read_number(bytes, 0, u32::MAX)?;
    read_each(alloc, count, rest)
}

// Adds the bytes of parts one behind another.
fn write_each<T: Writable>(values: &[T], out: &mut Bytes) -> Result<(), Memory>
    requires { (each (length values.now) T.format).Fits values.now }
    ensures { OnOk result (out.new ≡ out.old ++ (each (length values.now) T.format).spell values.now) }
{
    for value in values {
        value.write(out)?;
    }
    Ok(())
}

/// Adds the bytes of parts, behind their count. Want of memory is the one error.
#[tactic(auto, using(std::proofs::lemmas::List::append_assoc))]
pub fn write_list<T: Writable + Drop>(values: &List<T>, out: &mut Bytes) -> Result<(), Memory>
    requires { (counted T.format).Fits values.now }
    ensures { OnOk result (out.new ≡ out.old ++ (counted T.format).spell values.now) }
{
    write_number(out, u128::from(values.len()))?;
    write_each(values.as_slice(), out)
}

// Parts that keep what they are asked for have a spelling.
fn each_fits<T: Writable>(values: &[T])
    requires { list_all T.keeps values.now ≡ true }
    ensures { (each (length values.now) T.format).Fits values.now }
{
    for value in values {
        value.fits();
    }
}

/// A list of parts that keep what they are asked for has a spelling.
pub fn list_fits<T: Writable + Drop>(values: &List<T>)
    requires { list_all T.keeps values.now ≡ true }
    ensures { (counted T.format).Fits values.now }
{
    let _count = values.len();
    each_fits(values.as_slice());
}
