//! The slots of tuple classes.
ghost use Rattle.std.specs.Prelude.{◌≡◌, ◌++◌, ◌∷◌, [], Some, length, IfOk, OnOk};
ghost use Rattle.fac_lang.specs.Classes.{shape_at, slots_within};
ghost use Rattle.fac_classes.specs.inner.Chains.{chain_within, slots_in, slots_down};

use crate::shapes::parent_of;
use fac_base::{Duplicate, List, Memory, Text};
use fac_lang::{ClassDef, Shape};
use std::alloc::Global;

// The slots of a class without those of its parents.
fn own_slots(classes: &[ClassDef], class: u32) -> &[Text]
    ensures { result.now ≡ slots_in (shape_at classes.now class) }
{
    match classes.get(class as usize) {
        Some(def) => match &def.shape {
            Shape::Kind(_) => &[],
            Shape::Tuple { slots, .. } => slots.as_slice(),
            Shape::Union(_) => &[],
            Shape::Single => &[],
        },
        None => &[],
    }
}

// A class and those above it. No chain of parents is longer than the classes are many.
fn chain_of(alloc: Global, classes: &[ClassDef], class: u32) -> Result<Vec<u32>, Memory>
    ensures { IfOk result (λ chain. chain.items ≡ chain_within (length classes.now) classes.now (Some class)) }
{
    let mut chain = Vec::new(alloc);
    let mut next = Some(class);
    let mut left = classes.len();
    'up: while left > 0 {
        match next {
            Some(at) => {
                chain.push(at)?;
                next = parent_of(classes, at);
                left -= 1;
            }
            None => {
                break;
            }
        }
    }
    Ok(chain)
}

// Adds a slot.
fn add_slot(alloc: Global, slots: &mut List<Text>, slot: &Text) -> Result<(), Memory>
    ensures { OnOk result (slots.new ≡ slots.old ++ slot.now ∷ []) }
{
    slots.push(slot.copy(alloc)?)
}

// Adds slots.
fn add_slots(alloc: Global, slots: &mut List<Text>, more: &[Text]) -> Result<(), Memory>
    ensures { OnOk result (slots.new ≡ slots.old ++ more.now) }
{
    for slot in more {
        add_slot(alloc, slots, slot)?;
    }
    Ok(())
}

// The slots of the classes of a chain, the last class first.
fn slots_of_chain(alloc: Global, classes: &[ClassDef], chain: &[u32]) -> Result<List<Text>, Memory>
    ensures { IfOk result (λ slots. slots ≡ slots_down classes.now chain.now) }
{
    let mut slots = List::new(alloc);
    let mut rest = chain;
    while let Some((class, earlier)) = rest.split_last() {
        add_slots(alloc, &mut slots, own_slots(classes, *class))?;
        rest = earlier;
    }
    Ok(slots)
}

/// All slots of a class, those of its parents first.
pub fn slots_of(alloc: Global, classes: &[ClassDef], class: u32) -> Result<List<Text>, Memory>
    ensures { IfOk result (λ slots. slots ≡ slots_within (length classes.now) classes.now class) }
{
    let chain = chain_of(alloc, classes, class)?;
    slots_of_chain(alloc, classes, chain.as_slice())
}
