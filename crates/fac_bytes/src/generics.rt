//! Generics as bytes. The numbers of methods differ over the image.
ghost use Rattle.std.specs.Prelude.{◌≡◌, ◌++◌, ◌∷◌, [], length, nat_eq, true, IfOk, OnOk};
ghost use Rattle.std.specs.List.{IsDistinct};
ghost use Rattle.fac_bytes.specs.Spellable.{method_numbers};
ghost use Rattle.fac_spelling.specs.Formats.{each};
ghost use Rattle.fac_spelling.specs.Numbers.{number32, greatest32};
ghost use Rattle.fac_spelling.specs.Reads.{Gives};
ghost use Rattle.fac_bytes.specs.GenericBytes.{method_in, method, methods as methods_format, method_room as room_of, generic_in, generic, numbers_of, generics_from, generics};

use crate::part::{Writable, list_fits, write_list};
use fac_base::{Bytes, List, Memory};
use fac_code::{GenericRow, MethodRow};
use fac_spelling::{ReadFault, TakenNumbers, number_fits, read_number, write_number};
use std::alloc::Global;

// How many methods there can be beside those whose numbers are taken.
fn method_room(taken: &TakenNumbers) -> u32
    ensures { result ≡ room_of taken.now }
{
    let count = taken.len() as u64;
    if count > u64::from(u32::MAX) {
        return 0;
    }
    if count == 0 {
        return u32::MAX;
    }
    (u64::from(u32::MAX) + 1 - count) as u32
}

// The method at the front, whose number isn't taken and is from then on.
fn read_method<'a>(
    alloc: Global,
    taken: &mut TakenNumbers,
    bytes: &'a [u8],
) -> Result<(MethodRow, &'a [u8]), ReadFault>
    ensures exact { Gives (λ x. (x.0, x.1.now)) result ((method taken.old).read bytes.now) }
    ensures takes { IfOk result (λ x. taken.new ≡ taken.old ++ x.0.number ∷ []) }
{
    let (number, rest) = taken.read(alloc, bytes)?;
    let (set, rest) = read_number(rest, 0, u32::MAX)?;
    let (entry, rest) = read_number(rest, 0, u32::MAX)?;
    Ok((MethodRow { number, set, entry }, rest))
}

// So many methods.
fn read_methods<'a>(
    alloc: Global,
    taken: &mut TakenNumbers,
    count: u32,
    bytes: &'a [u8],
) -> Result<(List<MethodRow>, &'a [u8]), ReadFault>
    ensures exact { Gives (λ x. (x.0, x.1.now)) result ((methods_format count taken.old).read bytes.now) }
    ensures takes { IfOk result (λ x. taken.new ≡ taken.old ++ numbers_of x.0) }
{
    let mut methods = List::new(alloc);
    let mut rest = bytes;
    for _ in 0..count {
        let (method, after) = read_method(alloc, taken, rest)?;
        methods.push(method)?;
        rest = after;
    }
    Ok((methods, rest))
}

// The generic at the front.
fn read_generic<'a>(
    alloc: Global,
    taken: &mut TakenNumbers,
    bytes: &'a [u8],
) -> Result<(GenericRow, &'a [u8]), ReadFault>
    ensures exact { Gives (λ x. (x.0, x.1.now)) result ((generic taken.old).read bytes.now) }
    ensures takes { IfOk result (λ x. taken.new ≡ taken.old ++ numbers_of x.0.methods) }
{
    let (word, rest) = read_number(bytes, 0, u32::MAX)?;
    let (count, rest) = read_number(rest, 0, method_room(taken))?;
    let (methods, rest) = read_methods(alloc, taken, count, rest)?;
    Ok((GenericRow { word, methods }, rest))
}

// So many generics.
fn read_generics_from<'a>(
    alloc: Global,
    count: u32,
    bytes: &'a [u8],
) -> Result<(List<GenericRow>, &'a [u8]), ReadFault>
    ensures { Gives (λ x. (x.0, x.1.now)) result ((generics_from count []).read bytes.now) }
{
    let mut taken = TakenNumbers::new(alloc);
    let mut rows = List::new(alloc);
    let mut rest = bytes;
    for _ in 0..count {
        let (row, after) = read_generic(alloc, &mut taken, rest)?;
        rows.push(row)?;
        rest = after;
    }
    Ok((rows, rest))
}

/// The generics at the front, behind their count, and the bytes behind them.
pub fn read_generics(alloc: Global, bytes: &[u8]) -> Result<(List<GenericRow>, &[u8]), ReadFault>
    ensures { Gives (λ x. (x.0, x.1.now)) result (generics.read bytes.now) }
{
    let (count, rest) = read_number(bytes, 0, u32::MAX)?;
    read_generics_from(alloc, count, rest)
}

#[tactic(auto, using(crate::proofs::Written::row_three))]
impl Writable for MethodRow {
    ghost format = { method_in number32 };

    ghost keeps = { λ _. true };

    fn fits(&self) {
        number_fits(self.number);
        number_fits(self.set);
        number_fits(self.entry);
    }

    fn write(&self, out: &mut Bytes) -> Result<(), Memory> {
        write_number(out, u128::from(self.number))?;
        write_number(out, u128::from(self.set))?;
        write_number(out, u128::from(self.entry))
    }
}

#[tactic(auto, using(std::proofs::lemmas::List::append_assoc))]
impl Writable for GenericRow {
    ghost format = { generic_in greatest32 (λ n. each n (method_in number32)) };

    ghost keeps = { λ _. true };

    fn fits(&self) {
        number_fits(self.word);
        list_fits(&self.methods);
    }

    fn write(&self, out: &mut Bytes) -> Result<(), Memory> {
        write_number(out, u128::from(self.word))?;
        write_list(&self.methods, out)
    }
}

/// Adds the bytes of generics, behind their count. Want of memory is the one error.
pub fn write_generics(rows: &List<GenericRow>, out: &mut Bytes) -> Result<(), Memory>
    requires { generics.Fits rows.now }
    ensures { OnOk result (out.new ≡ out.old ++ generics.spell rows.now) }
{
    write_list(rows, out)
}

/// Generics have a spelling where no two of their methods have one number.
pub fn generics_fit(rows: &List<GenericRow>)
    requires { IsDistinct nat_eq (method_numbers rows.now) }
    ensures { generics.Fits rows.now }
{
    list_fits(rows);
}
