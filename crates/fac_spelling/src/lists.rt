//! Lists behind their length, and options.
ghost use Rattle.std.specs.Prelude.{◌≡◌, ◌++◌, length, OnOk};
ghost use Rattle.fac_spelling.specs.Formats.{each};
ghost use Rattle.fac_spelling.specs.Lists.{counted, optional};
ghost use Rattle.fac_spelling.specs.Reads.{Gives};

use crate::{ReadFault, Spelled, Writes, read_number, write_number};
use fac_base::{Bytes, List, Memory};
use std::alloc::Global;

/// So many values one behind another. The list grows as they are read, so where each takes a byte at least, a wrong count takes no more
/// memory than the bytes.
pub fn read_each<T: Spelled + Drop>(
    alloc: Global,
    count: u32,
    bytes: &[u8],
) -> Result<(List<T>, &[u8]), ReadFault>
    ensures { Gives (λ x. (x.0, x.1.now)) result ((each count T.format).read bytes.now) }
{
    let mut values = List::new(alloc);
    let mut rest = bytes;
    for _ in 0..count {
        let (value, after) = T::read(alloc, rest)?;
        values.push(value)?;
        rest = after;
    }
    Ok((values, rest))
}

impl<T: Spelled + Drop> Spelled for List<T> {
    ghost format = { counted T.format };

    fn read(alloc: Global, bytes: &[u8]) -> Result<(List<T>, &[u8]), ReadFault> {
        let (count, rest) = read_number(bytes, 0, u32::MAX)?;
        read_each(alloc, count, rest)
    }
}

/// Adds the bytes of values one behind another. Want of memory is the one error.
pub fn write_each<T: Writes>(values: &[T], out: &mut Bytes) -> Result<(), Memory>
    requires { (each (length values.now) T.format).Fits values.now }
    ensures { OnOk result (out.new ≡ out.old ++ (each (length values.now) T.format).spell values.now) }
{
    for value in values {
        value.write(out)?;
    }
    Ok(())
}

#[tactic(auto, using(std::proofs::lemmas::List::append_assoc))]
impl<T: Writes + Drop> Writes for List<T> {
    fn write(&self, out: &mut Bytes) -> Result<(), Memory> {
        write_number(out, u128::from(self.len()))?;
        write_each(self.as_slice(), out)
    }
}

#[tactic(auto, unfolding(crate::specs::Formats::all_at))]
impl<T: Spelled + Drop> Spelled for Option<T> {
    ghost format = { optional T.format };

    fn read(alloc: Global, bytes: &[u8]) -> Result<(Option<T>, &[u8]), ReadFault> {
        let (tag, rest) = read_number(bytes, 0, 1)?;
        if tag == 0 {
            return Ok((None, rest));
        }
        let (value, rest) = T::read(alloc, rest)?;
        Ok((Some(value), rest))
    }
}

#[tactic(auto, using(crate::proofs::WriteLoops::written))]
impl<T: Writes + Drop> Writes for Option<T> {
    fn write(&self, out: &mut Bytes) -> Result<(), Memory> {
        match self {
            None => write_number(out, 0),
            Some(value) => {
                write_number(out, 1)?;
                value.write(out)
            }
        }
    }
}
