//! The kinds that classes have as their own.
ghost use Rattle.std.specs.Prelude.{◌≡◌, ◌<◌, ◌≤◌, ◌+◌, ◌-◌, ◌^◌, ◌&&◌, length, nat_le, slice_get, IfOk};
ghost use Rattle.fac_lang.specs.Classes.{shape_with, is_tuple, is_single};
ghost use Rattle.fac_classes.specs.inner.OwnKinds.{own_kinds as own_kinds_seen, owners_from};

use crate::shapes::{has_own_kind, is_singleton, is_tuple_class};
use fac_base::Memory;
use fac_lang::ClassDef;
use std::alloc::Global;

/// The number of the first kind that a class has as its own.
pub const FIRST_OWN: u32 = 8;

/// For each class the kind that it has as its own.
pub fn own_kinds(alloc: Global, classes: &[ClassDef]) -> Result<Vec<Option<u32>>, Memory>
    requires { length classes.now + 8 < 2 ^ 32 }
    ensures { IfOk result (λ kinds. kinds.items ≡ own_kinds_seen 8 classes.now) }
{
    let mut kinds = Vec::new(alloc);
    let mut next = FIRST_OWN;
    for class in classes {
        if has_own_kind(&class.shape) {
            kinds.push(Some(next))?;
            next += 1;
        } else {
            kinds.push(None)?;
        }
    }
    Ok(kinds)
}

/// The classes that have kinds of their own, in the order of these.
pub fn owners(alloc: Global, classes: &[ClassDef]) -> Result<Vec<u32>, Memory>
    requires { length classes.now + 8 < 2 ^ 32 }
    ensures { IfOk result (λ owners. owners.items ≡ owners_from 0 classes.now) }
{
    let mut owners = Vec::new(alloc);
    let mut number: u32 = 0;
    for class in classes {
        if has_own_kind(&class.shape) {
            owners.push(number)?;
        }
        number += 1;
    }
    Ok(owners)
}

/// The class that has a kind as its own.
pub fn owner_of(owners: &[u32], kind: u32) -> Option<u32>
    requires { 8 ≤ kind }
    ensures { result ≡ slice_get owners.now (kind - 8) }
{
    owners.get(kind as usize - FIRST_OWN as usize).copied()
}

/// Whether a kind is the own kind of a tuple class.
pub fn is_tuple_kind(classes: &[ClassDef], owners: &[u32], kind: u32) -> bool
    requires { owners.now ≡ owners_from 0 classes.now }
    ensures { result ≡ (nat_le 8 kind && is_tuple (shape_with classes.now kind)) }
{
    if kind < FIRST_OWN {
        return false;
    }
    match owner_of(owners, kind) {
        Some(class) => is_tuple_class(classes, class),
        None => false,
    }
}

/// Whether a kind is the own kind of a singleton.
pub fn is_single_kind(classes: &[ClassDef], owners: &[u32], kind: u32) -> bool
    requires { owners.now ≡ owners_from 0 classes.now }
    ensures { result ≡ (nat_le 8 kind && is_single (shape_with classes.now kind)) }
{
    if kind < FIRST_OWN {
        return false;
    }
    match owner_of(owners, kind) {
        Some(class) => is_singleton(classes, class),
        None => false,
    }
}
