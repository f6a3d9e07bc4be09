//! Integers of 128 bits.
ghost use Rattle.std.specs.Prelude.{◌≡◌, ◌<◌, ◌^◌};
ghost use Rattle.fac_spelling.specs.Integers.{zigzag as zigzag_of, unzigzag as unzigzag_of, integer};

use crate::{ReadFault, Spelled, Writes, read_wide, write_number};
use fac_base::{Bytes, Memory};
use std::alloc::Global;

/// The number of an integer.
pub fn zigzag(integer: i128) -> u128
    ensures { result ≡ zigzag_of integer }
{
    if integer >= 0 {
        integer as u128 * 2
    } else {
        (-(integer + 1)) as u128 * 2 + 1
    }
}

/// The integer of a number.
pub fn unzigzag(number: u128) -> i128
    ensures { result ≡ unzigzag_of number }
{
    if number % 2 == 0 {
        (number / 2) as i128
    } else {
        -((number / 2) as i128) - 1
    }
}

impl Spelled for i128 {
    ghost format = { integer };

    fn read(_alloc: Global, bytes: &[u8]) -> Result<(i128, &[u8]), ReadFault> {
        let (number, rest) = read_wide(bytes, 0, u128::MAX)?;
        Ok((unzigzag(number), rest))
    }
}

impl Writes for i128 {
    fn write(&self, out: &mut Bytes) -> Result<(), Memory> {
        write_number(out, zigzag(*self))
    }
}
