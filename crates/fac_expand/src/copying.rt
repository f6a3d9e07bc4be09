//! Copies of the tables that have no places of code.
ghost use Rattle.std.specs.Prelude.{◌≡◌, IfOk};

use fac_base::{Duplicate, List, Memory};
use fac_code::{Elem, KindRow};
use std::alloc::Global;

// A copy of a literal array.
fn copied_array(alloc: Global, array: &List<Elem>) -> Result<List<Elem>, Memory>
    ensures { IfOk result (λ copy. copy ≡ array.now) }
{
    let mut copy = List::new(alloc);
    for element in array.as_slice() {
        copy.push(*element)?;
    }
    Ok(copy)
}

/// A copy of the literal arrays. Want of memory is the one error.
pub fn copied_arrays(alloc: Global, arrays: &List<List<Elem>>) -> Result<List<List<Elem>>, Memory>
    ensures { IfOk result (λ copy. copy ≡ arrays.now) }
{
    let mut copy = List::new(alloc);
    for array in arrays.as_slice() {
        copy.push(copied_array(alloc, array)?)?;
    }
    Ok(copy)
}

// A copy of the row of a kind.
fn copied_kind(alloc: Global, kind: &KindRow) -> Result<KindRow, Memory>
    ensures { IfOk result (λ copy. copy ≡ kind.now) }
{
    let slots = kind.slots.copy(alloc)?;
    Ok(KindRow {
        vocab: kind.vocab,
        name: kind.name,
        slots,
    })
}

/// A copy of the rows of kinds. Want of memory is the one error.
pub fn copied_kinds(alloc: Global, kinds: &List<KindRow>) -> Result<List<KindRow>, Memory>
    ensures { IfOk result (λ copy. copy ≡ kinds.now) }
{
    let mut copy = List::new(alloc);
    for kind in kinds.as_slice() {
        copy.push(copied_kind(alloc, kind)?)?;
    }
    Ok(copy)
}
