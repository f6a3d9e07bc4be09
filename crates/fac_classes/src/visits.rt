//! All classes in an order in which each comes behind its members, found by one walk without recursion.
ghost use Rattle.std.specs.Prelude.{◌≡◌, ◌<◌, ◌+◌, ◌^◌, ◌++◌, ◌∷◌, [], length, map, IfOk, OnOk};
ghost use Rattle.std.specs.List.{range_with_len};
ghost use Rattle.fac_classes.specs.declared.visits.Visit.TheVariants.{Enter};
ghost use Rattle.fac_classes.specs.inner.Members.{AreSound};
ghost use Rattle.fac_classes.specs.inner.Visits.{visits_of, IsOrder, Walks, StepsTo};

use crate::shapes::members_of;
use fac_base::Memory;
use fac_lang::ClassDef;
use std::alloc::Global;

// What is to be done with a class.
#[derive(Clone, Copy)]
pub enum Visit {
    // Its members are to be visited, where it wasn't left yet.
    Enter(u32),
    // Its members were left, so it is left now.
    Leave(u32),
}

// A walk.
#[derive(Drop)]
struct Walk {
    // What is to be done, the last first.
    stack: Vec<Visit>,
    // Which classes were left.
    done: Vec<bool>,
    // The classes that were left, in order.
    order: Vec<u32>,
}

// Enters a class.
fn enter(stack: &mut Vec<Visit>, classes: &[ClassDef], class: u32) -> Result<(), Memory>
    ensures { OnOk result (stack.new.items ≡ stack.old.items ++ visits_of classes.now class) }
{
    stack.push(Visit::Leave(class))?;
    for member in members_of(classes, class) {
        stack.push(Visit::Enter(*member))?;
    }
    Ok(())
}

// Leaves a class.
fn leave(walk: &mut Walk, classes: &[ClassDef], class: u32) -> Result<(), Memory>
    requires sound { AreSound classes.now }
    requires walk { Walks classes.now walk.old.done.items walk.old.order.items (walk.old.stack.items ++ Visit.Leave class ∷ []) }
    ensures { OnOk result (StepsTo classes.now (walk.old.stack.items ++ Visit.Leave class ∷ []) walk.new.done.items walk.new.order.items walk.new.stack.items) }
{
    let place = class as usize;
    walk.done[place] = true;
    walk.order.push(class)?;
    Ok(())
}

// Does what is to be done with a class.
fn step(walk: &mut Walk, classes: &[ClassDef], visit: Visit) -> Result<(), Memory>
    requires sound { AreSound classes.now }
    requires walk { Walks classes.now walk.old.done.items walk.old.order.items (walk.old.stack.items ++ visit ∷ []) }
    ensures { OnOk result (StepsTo classes.now (walk.old.stack.items ++ visit ∷ []) walk.new.done.items walk.new.order.items walk.new.stack.items) }
{
    match visit {
        Visit::Enter(class) => {
            if walk.done[class as usize] {
                Ok(())
            } else {
                enter(&mut walk.stack, classes, class)
            }
        }
        Visit::Leave(class) => leave(walk, classes, class),
    }
}

// Walks until all is done.
fn explore(walk: &mut Walk, classes: &[ClassDef]) -> Result<(), Memory>
    requires sound { AreSound classes.now }
    requires walk { Walks classes.now walk.old.done.items walk.old.order.items walk.old.stack.items }
    ensures { OnOk result (IsOrder classes.now walk.new.order.items) }
{
    while let Some(visit) = walk.stack.pop() {
        step(walk, classes, visit)?;
    }
    Ok(())
}

// Enters all classes below a number.
fn begin(stack: &mut Vec<Visit>, count: u32) -> Result<(), Memory>
    ensures { OnOk result (stack.new.items ≡ stack.old.items ++ map Enter (range_with_len 0 count)) }
{
    for class in 0..count {
        stack.push(Visit::Enter(class))?;
    }
    Ok(())
}

/// All classes, each behind its members. The time is near linear in the number of classes and members.
pub fn class_order(alloc: Global, classes: &[ClassDef]) -> Result<Vec<u32>, Memory>
    requires sound { AreSound classes.now }
    requires count { length classes.now < 2 ^ 32 }
    ensures { IfOk result (λ order. IsOrder classes.now order.items) }
{
    let mut walk = Walk {
        stack: Vec::new(alloc),
        done: vec![in alloc; false; classes.len()]?,
        order: Vec::new(alloc),
    };
    begin(&mut walk.stack, classes.len() as u32)?;
    explore(&mut walk, classes)?;
    Ok(walk.order)
}
