//! Numbers that ascend, and pairs whose keys ascend.
ghost use Rattle.std.specs.Prelude.{◌≡◌, ◌+◌, ◌≤◌, ◌^◌, ◌++◌, IfOk, OnOk};
ghost use Rattle.fac_spelling.specs.Formats.{follow};
ghost use Rattle.fac_spelling.specs.Numbers.{number as number_format, IsWithin};
ghost use Rattle.fac_spelling.specs.Lists.{ascend, ascend_by, ascending, ascending_by};
ghost use Rattle.fac_spelling.specs.Reads.{Gives};

use crate::{ReadFault, Spelled, Writes, read_number, write_each, write_number};
use fac_base::{Bytes, List, Memory};
use std::alloc::Global;

// So many numbers, each above those before it and with room for those after it.
fn read_ascend(alloc: Global, count: u32, bytes: &[u8]) -> Result<(List<u32>, &[u8]), ReadFault>
    ensures { Gives (λ x. (x.0, x.1.now)) result ((ascend count 0).read bytes.now) }
{
    let mut values = List::new(alloc);
    let mut rest = bytes;
    let mut least: u64 = 0;
    for index in 0..count {
        let most = u32::MAX - (count - 1 - index);
        let (value, next) = read_number(rest, least as u32, most)?;
        values.push(value)?;
        rest = next;
        least = u64::from(value) + 1;
    }
    Ok((values, rest))
}

/// The ascending numbers at the front, behind their count, and the bytes behind them.
pub fn read_ascending(alloc: Global, bytes: &[u8]) -> Result<(List<u32>, &[u8]), ReadFault>
    ensures { Gives (λ x. (x.0, x.1.now)) result (ascending.read bytes.now) }
{
    let (count, rest) = read_number(bytes, 0, u32::MAX)?;
    read_ascend(alloc, count, rest)
}

/// Adds the bytes of ascending numbers, behind their count. Want of memory is the one error.
#[tactic(auto, using(crate::proofs::WriteLoops::counted_written))]
pub fn write_ascending(values: &[u32], out: &mut Bytes) -> Result<(), Memory>
    requires { ascending.Fits values.now }
    ensures { OnOk result (out.new ≡ out.old ++ ascending.spell values.now) }
{
    write_number(out, values.len() as u128)?;
    write_each(values, out)
}

// A key in a range, and the value behind it.
fn read_entry<T: Spelled>(
    alloc: Global,
    bytes: &[u8],
    low: u32,
    high: u32,
) -> Result<((u32, T), &[u8]), ReadFault>
    ensures within { IfOk result (λ x. IsWithin low high x.0.0) }
    ensures exact { Gives (λ x. (x.0, x.1.now)) result ((follow (number_format low high) (λ _. T.format)).read bytes.now) }
{
    let (key, rest) = read_number(bytes, low, high)?;
    let (value, rest) = T::read(alloc, rest)?;
    Ok(((key, value), rest))
}

// So many entries, whose keys ascend so.
fn read_ascend_by<T: Spelled + Drop>(
    alloc: Global,
    count: u32,
    bytes: &[u8],
) -> Result<(List<(u32, T)>, &[u8]), ReadFault>
    ensures { Gives (λ x. (x.0, x.1.now)) result ((ascend_by T.format count 0).read bytes.now) }
{
    let mut entries = List::new(alloc);
    let mut rest = bytes;
    let mut least: u64 = 0;
    for index in 0..count {
        let most = u32::MAX - (count - 1 - index);
        let (entry, next) = read_entry(alloc, rest, least as u32, most)?;
        least = u64::from(entry.0) + 1;
        entries.push(entry)?;
        rest = next;
    }
    Ok((entries, rest))
}

/// The entries at the front, behind their count, whose keys ascend, and the bytes behind them.
pub fn read_ascending_by<T: Spelled + Drop>(
    alloc: Global,
    bytes: &[u8],
) -> Result<(List<(u32, T)>, &[u8]), ReadFault>
    ensures { Gives (λ x. (x.0, x.1.now)) result ((ascending_by T.format).read bytes.now) }
{
    let (count, rest) = read_number(bytes, 0, u32::MAX)?;
    read_ascend_by(alloc, count, rest)
}

/// Adds the bytes of entries whose keys ascend, behind their count. Want of memory is the one error.
#[tactic(auto, using(crate::proofs::WriteLoops::counted_by_written))]
pub fn write_ascending_by<T: Writes + Drop>(
    entries: &[(u32, T)],
    out: &mut Bytes,
) -> Result<(), Memory>
    requires { (ascending_by T.format).Fits entries.now }
    ensures { OnOk result (out.new ≡ out.old ++ (ascending_by T.format).spell entries.now) }
{
    write_number(out, entries.len() as u128)?;
    write_each(entries, out)
}
