//! The kinds that take all of the bytes as one value.
ghost use Rattle.fac_spelling.specs.Formats.{Exact};
ghost use Rattle.fac_spelling.specs.Numbers.{number32};

use crate::stop::Stop;
use crate::telling::{Told, tell, tell_again};
use fac_base::{Bytes, List, Text};
use fac_spelling::{
    Writes, integers_are_exact, lists_are_exact, numbers_are_exact, options_are_exact,
    pairs_are_exact, read_all, texts_are_exact,
};
use std::alloc::Global;

// All of the bytes as a value.
fn whole<T: Told + Writes + Drop>(alloc: Global, bytes: &[u8]) -> Result<Text, Stop>
    requires { Exact T.format }
{
    let value = read_all::<T>(alloc, bytes)?;
    let mut told = tell(alloc, &value)?;
    let mut out = Bytes::new(alloc);
    value.write(&mut out)?;
    tell_again(&mut told, &mut out, b"".as_slice(), bytes)?;
    Ok(told)
}

/// The format of a number of 32 bits is exact.
pub fn number_is_exact()
    ensures { Exact number32 }
{
    numbers_are_exact();
}

/// A number of 32 bits.
pub fn number(alloc: Global, bytes: &[u8]) -> Result<Text, Stop> {
    number_is_exact();
    whole::<u32>(alloc, bytes)
}

/// An integer of 128 bits.
pub fn integer(alloc: Global, bytes: &[u8]) -> Result<Text, Stop> {
    integers_are_exact();
    whole::<i128>(alloc, bytes)
}

/// A text.
pub fn text(alloc: Global, bytes: &[u8]) -> Result<Text, Stop> {
    texts_are_exact();
    whole::<Text>(alloc, bytes)
}

/// A list of pairs of a number and an option of a number.
pub fn list(alloc: Global, bytes: &[u8]) -> Result<Text, Stop> {
    number_is_exact();
    options_are_exact::<u32>();
    pairs_are_exact::<u32, Option<u32>>();
    lists_are_exact::<(u32, Option<u32>)>();
    whole::<List<(u32, Option<u32>)>>(alloc, bytes)
}

/// An option of an option of a number.
pub fn option(alloc: Global, bytes: &[u8]) -> Result<Text, Stop> {
    number_is_exact();
    options_are_exact::<u32>();
    options_are_exact::<Option<u32>>();
    whole::<Option<Option<u32>>>(alloc, bytes)
}
