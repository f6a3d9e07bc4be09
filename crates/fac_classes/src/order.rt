//! The order of classes: fewer kinds first, and then by full name.
ghost use Rattle.std.specs.Prelude.{◌≡◌, ◌<◌, ◌≤◌, ◌+◌, ◌*◌, ◌^◌, ◌++◌, ◌∷◌, ℕ, [], get_or, length, map, string_bytes, IfOk, OnOk};
ghost use Rattle.std.specs.List.{range_with_len};
ghost use Rattle.fac_classes.specs.ClassKinds.{place_of};
ghost use Rattle.fac_classes.specs.inner.Cells.{IsTable};
ghost use Rattle.fac_classes.specs.inner.Ordering.{cell_count, key_of, IsAscending, key_seen, HasPlaces, IsOnce};

use crate::cells::is_marked;
use fac_base::{Memory, Name};
use fac_lang::ClassDef;
use std::alloc::Global;

// How many kinds are marked for a class.
fn count_kinds(cells: &[bool], width: u32, class: u32) -> u32
    requires { class * width + width ≤ length cells.now }
    ensures { result ≡ cell_count width cells.now class width }
{
    let mut count: u32 = 0;
    for kind in 0..width {
        if is_marked(cells, width, class, kind) {
            count += 1;
        }
    }
    count
}

// The vocabulary of a name, a colon and the name.
fn full_name(alloc: Global, name: &Name) -> Result<String, Memory>
    ensures { IfOk result (λ text. string_bytes text ≡ name.now.vocab ++ 58 ∷ name.now.name) }
{
    let mut text = String::new(alloc);
    text.push_str(name.vocab.as_str())?;
    text.push(':')?;
    text.push_str(name.name.as_str())?;
    Ok(text)
}

// Adds what orders a class: how many kinds it has, its full name and its number.
fn add_key(
    alloc: Global,
    keys: &mut Vec<(u32, String, u32)>,
    cells: &[bool],
    width: u32,
    classes: &[ClassDef],
    class: u32,
) -> Result<(), Memory>
    requires table { IsTable classes.now width cells.now }
    requires class { class < length classes.now }
    ensures { OnOk result (map key_seen keys.new.items ≡ map key_seen keys.old.items ++ key_of classes.now class ∷ []) }
{
    let count = count_kinds(cells, width, class);
    let name = full_name(alloc, &classes[class as usize].name)?;
    keys.push((count, name, class))?;
    Ok(())
}

// What orders the classes, by their numbers.
fn keys_of(
    alloc: Global,
    cells: &[bool],
    width: u32,
    classes: &[ClassDef],
) -> Result<Vec<(u32, String, u32)>, Memory>
    requires table { IsTable classes.now width cells.now }
    requires count { length classes.now < 2 ^ 32 }
    ensures { IfOk result (λ keys. map key_seen keys.items ≡ map (key_of classes.now) (range_with_len 0 (length classes.now))) }
{
    let mut keys = Vec::new(alloc);
    for class in 0..classes.len() as u32 {
        add_key(alloc, &mut keys, cells, width, classes, class)?;
    }
    Ok(keys)
}

// The numbers in keys.
fn numbers_of(alloc: Global, keys: &[(u32, String, u32)]) -> Result<Vec<u32>, Memory>
    ensures { IfOk result (λ numbers. numbers.items ≡ map (λ key. key.2) keys.now) }
{
    let mut numbers = Vec::new(alloc);
    for key in keys {
        numbers.push(key.2)?;
    }
    Ok(numbers)
}

// All classes in their order. It takes what `places_of` takes.
fn ascending(
    alloc: Global,
    cells: &[bool],
    width: u32,
    classes: &[ClassDef],
) -> Result<Vec<u32>, Memory>
    requires table { IsTable classes.now width cells.now }
    requires count { length classes.now < 2 ^ 32 }
    ensures { IfOk result (λ numbers. IsAscending classes.now numbers.items) }
{
    let mut keys = keys_of(alloc, cells, width, classes)?;
    keys.sort()?;
    numbers_of(alloc, keys.as_slice())
}

// Puts its place for each number.
fn put_places(places: &mut Vec<u32>, numbers: &[u32])
    requires once { IsOnce numbers.now }
    requires low { (i : ℕ) → i < length numbers.now → get_or numbers.now i 0 < length places.old.items }
    requires count { length numbers.now < 2 ^ 32 }
    ensures places { HasPlaces (length numbers.now) numbers.now places.new.items }
    ensures sized { length places.new.items ≡ length places.old.items }
{
    let mut place: u32 = 0;
    for number in numbers {
        let index = *number as usize;
        places[index] = place;
        place += 1;
    }
}

/// For each class how many classes come before it.
pub fn places_of(
    alloc: Global,
    cells: &[bool],
    width: u32,
    classes: &[ClassDef],
) -> Result<Vec<u32>, Memory>
    requires table { IsTable classes.now width cells.now }
    requires count { length classes.now < 2 ^ 32 }
    ensures { IfOk result (λ places. places.items ≡ map (place_of classes.now) (range_with_len 0 (length classes.now))) }
{
    let numbers = ascending(alloc, cells, width, classes)?;
    let mut places = vec![in alloc; 0; classes.len()]?;
    put_places(&mut places, numbers.as_slice());
    Ok(places)
}
