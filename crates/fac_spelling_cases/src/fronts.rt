//! The kinds that take a value at the front of the bytes, or one behind another.
use crate::stop::{Stop, place};
use crate::telling::{tell, tell_again, tell_left};
use crate::wholes::number_is_exact;
use fac_base::{Bytes, List, Memory, Text};
use fac_spelling::{
    TakenNumbers, ascending_numbers_are_exact, ascending_pairs_are_exact, read_ascending,
    read_ascending_by, read_fixed, write_ascending, write_ascending_by, write_fixed, write_number,
};
use std::alloc::Global;

/// Ascending numbers.
pub fn ascending(alloc: Global, bytes: &[u8]) -> Result<Text, Stop> {
    ascending_numbers_are_exact();
    match read_ascending(alloc, bytes) {
        Err(fault) => Err(place(bytes, fault)),
        Ok((numbers, rest)) => {
            let mut told = tell(alloc, &numbers)?;
            let mut out = Bytes::new(alloc);
            write_ascending(numbers.as_slice(), &mut out)?;
            tell_left(&mut told, rest)?;
            tell_again(&mut told, &mut out, rest, bytes)?;
            Ok(told)
        }
    }
}

/// Pairs of numbers whose first ones ascend.
pub fn ascending_by(alloc: Global, bytes: &[u8]) -> Result<Text, Stop> {
    number_is_exact();
    ascending_pairs_are_exact::<u32>();
    match read_ascending_by::<u32>(alloc, bytes) {
        Err(fault) => Err(place(bytes, fault)),
        Ok((pairs, rest)) => {
            let mut told = tell(alloc, &pairs)?;
            let mut out = Bytes::new(alloc);
            write_ascending_by(pairs.as_slice(), &mut out)?;
            tell_left(&mut told, rest)?;
            tell_again(&mut told, &mut out, rest, bytes)?;
            Ok(told)
        }
    }
}

/// The fixed bytes.
pub fn fixed(alloc: Global, bytes: &[u8]) -> Result<Text, Stop> {
    match read_fixed(bytes, b"FCI1".as_slice()) {
        Err(fault) => Err(place(bytes, fault)),
        Ok(rest) => {
            let mut told = Text::from_str(alloc, "there")?;
            let mut out = Bytes::new(alloc);
            write_fixed(b"FCI1".as_slice(), &mut out)?;
            tell_left(&mut told, rest)?;
            tell_again(&mut told, &mut out, rest, bytes)?;
            Ok(told)
        }
    }
}

// Numbers one behind another, each of them not taken before. Each has a byte at least.
fn take_all(alloc: Global, bytes: &[u8]) -> Result<List<u32>, Stop> {
    let mut taken = TakenNumbers::new(alloc);
    let mut numbers = List::new(alloc);
    let mut rest = bytes;
    for _ in 0..bytes.len() {
        if rest.is_empty() {
            break;
        }
        match taken.read(alloc, rest) {
            Err(fault) => {
                return Err(place(bytes, fault));
            }
            Ok((number, after)) => {
                numbers.push(number)?;
                rest = after;
            }
        }
    }
    Ok(numbers)
}

// Adds the bytes of numbers.
fn write_taken(numbers: &[u32], out: &mut Bytes) -> Result<(), Memory> {
    for number in numbers {
        write_number(out, u128::from(*number))?;
    }
    Ok(())
}

/// Numbers one behind another of which no two are the same.
pub fn taken(alloc: Global, bytes: &[u8]) -> Result<Text, Stop> {
    let numbers = take_all(alloc, bytes)?;
    let mut told = tell(alloc, &numbers)?;
    let mut out = Bytes::new(alloc);
    write_taken(numbers.as_slice(), &mut out)?;
    tell_again(&mut told, &mut out, b"".as_slice(), bytes)?;
    Ok(told)
}
