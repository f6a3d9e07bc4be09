//! The classes whose slots a class has by its parents.
ghost use Rattle.std.specs.Prelude.{◌≡◌, ◌<◌, ◌≤◌, ◌+◌, ◌++◌, length, nat_lt, IfOk, OnOk};
ghost use Rattle.fac_endings.specs.ClassTable.{slots_at};
ghost use Rattle.fac_endings.specs.LastRefusals.{most_slots};
ghost use Rattle.fac_endings.specs.inner.Chains.{Bears, Climbs, Meets, met_with, next_in, slots_of};
ghost use Rattle.fac_endings.specs.inner.Lines.{AreLines, Line};

use crate::lines::line_at;
use crate::lookup::{parent_of, slots_at};
use fac_base::limits::MOST_SLOTS;
use fac_base::{List, Memory};
use fac_lang::ClassDef;
use std::alloc::Global;

// Whether a class is there and wasn't met. From now on it is met.
fn meets(met: &mut Vec<bool>, class: u32) -> bool
    ensures { Meets class met.old.items met.new.items result }
{
    match met.get(class as usize) {
        Some(true) => false,
        Some(false) => {
            met[class as usize] = true;
            true
        }
        None => false,
    }
}

// The parent of a class, where it is there and wasn't met. From now on it is met.
fn next(classes: &[ClassDef], met: &mut Vec<bool>, class: u32) -> Option<u32>
    ensures next { result ≡ next_in classes.now met.old.items class }
    ensures met { met.new.items ≡ met_with result met.old.items }
{
    match parent_of(classes, class) {
        Some(parent) => {
            if meets(met, parent) {
                Some(parent)
            } else {
                None
            }
        }
        None => None,
    }
}

// Some parents of a class, from the nearest on.
#[derive(Drop)]
struct Chain {
    // The one that was come to.
    at: u32,
    // Those that have slots.
    bearers: Vec<u32>,
    // How many slots these have, and the class itself.
    count: u64,
}

// Passes on to a parent.
fn pass(chain: &mut Chain, classes: &[ClassDef], parent: u32) -> Result<(), Memory>
    requires { chain.old.count ≤ most_slots }
    ensures at { OnOk result (chain.new.at ≡ parent) }
    ensures bearers { OnOk result (slots_of classes.now chain.new.bearers.items ≡ slots_of classes.now chain.old.bearers.items ++ slots_at classes.now parent) }
    ensures count { OnOk result (chain.new.count ≡ chain.old.count + length (slots_at classes.now parent)) }
{
    let slots = slots_at(classes, parent).len();
    chain.at = parent;
    if slots > 0 {
        chain.bearers.push(parent)?;
        chain.count += slots as u64;
    }
    Ok(())
}

// Goes from parent to parent, until there is none that wasn't met, or the slots are too many.
fn climb(classes: &[ClassDef], met: &mut Vec<bool>, chain: &mut Chain) -> Result<(), Memory>
    ensures { OnOk result (Climbs classes.now met.old.items chain.old chain.new) }
{
    for _step in classes {
        if chain.count > MOST_SLOTS {
            return Ok(());
        }
        match next(classes, met, chain.at) {
            Some(parent) => pass(chain, classes, parent)?,
            None => return Ok(()),
        }
    }
    Ok(())
}

// The parents of a class that has slots of its own, which are so many, by a climb. None where the slots are too many.
fn climbed(
    alloc: Global,
    classes: &[ClassDef],
    class: u32,
    own: u64,
) -> Result<Option<Vec<u32>>, Memory>
    ensures { IfOk result (λ bearers. Bears classes.now class own bearers) }
{
    let mut met = vec![in alloc; false; classes.len()]?;
    meets(&mut met, class);
    let mut chain = Chain {
        at: class,
        bearers: Vec::new(alloc),
        count: own,
    };
    climb(classes, &mut met, &mut chain)?;
    let Chain { bearers, count, .. } = chain;
    if count > MOST_SLOTS {
        return Ok(None);
    }
    Ok(Some(bearers))
}

// Whether the slots of some classes and so many more are too many.
fn are_too_many(classes: &[ClassDef], bearers: &[u32], own: u64) -> bool
    ensures { result ≡ nat_lt most_slots (own + length (slots_of classes.now bearers.now)) }
{
    let mut count = own;
    for bearer in bearers {
        if count > MOST_SLOTS {
            return true;
        }
        count += slots_at(classes, *bearer).len() as u64;
    }
    count > MOST_SLOTS
}

// A copy of numbers.
fn copied(alloc: Global, numbers: &[u32]) -> Result<Vec<u32>, Memory>
    ensures { IfOk result (λ copy. copy.items ≡ numbers.now) }
{
    let mut copy = Vec::new(alloc);
    for number in numbers {
        copy.push(*number)?;
    }
    Ok(copy)
}

// The parents of a class by its line.
fn by_line(
    alloc: Global,
    classes: &[ClassDef],
    line: &[u32],
    class: u32,
    own: u64,
) -> Result<Option<Vec<u32>>, Memory>
    requires line { Line classes.now class line.now }
    requires there { class < length classes.now }
    ensures { IfOk result (λ bearers. Bears classes.now class own bearers) }
{
    if are_too_many(classes, line, own) {
        return Ok(None);
    }
    Ok(Some(copied(alloc, line)?))
}

/// The parents from which a class has slots, the nearest first, each once. None where the slots are too many, with those that it has of its
/// own, which are so many.
pub fn bearers_of(
    alloc: Global,
    classes: &[ClassDef],
    lines: &[Option<List<u32>>],
    class: u32,
    own: u64,
) -> Result<Option<Vec<u32>>, Memory>
    requires lines { AreLines classes.now (length classes.now) lines.now }
    requires there { class < length classes.now }
    ensures { IfOk result (λ bearers. Bears classes.now class own bearers) }
{
    match line_at(lines, class) {
        Some(line) => by_line(alloc, classes, line.as_slice(), class, own),
        None => climbed(alloc, classes, class, own),
    }
}
