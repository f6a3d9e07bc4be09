//! The slots of classes are counted, each class once: upward from a class to one that is counted, and back down.
ghost use Rattle.std.specs.Prelude.{◌≡◌, ◌<◌, true, length, map, slice_get, Some, IfOk};
ghost use Rattle.fac_lang.specs.Classes.{parent_in, shape_at};
ghost use Rattle.fac_graph.specs.Slots.{classes_end, own_slot_count, slot_counts};
ghost use Rattle.fac_graph.specs.inner.Climbing.{Climbed, IsIdle, IsMet, IsOver, MayDescend, Visits, VisitsOne, all_known, is_known, known_or_none};
ghost use Rattle.fac_graph.specs.declared.slots.SlotCount.TheVariants.{Known};

use fac_base::{List, Memory};
use fac_lang::{ClassDef, Shape};
use std::alloc::Global;

// How far a class is counted.
#[derive(Clone, Copy)]
enum SlotCount {
    // It wasn't met.
    Unmet,
    // It is on the way up.
    OnWay,
    // It has so many slots, with its parents'.
    Known(u32),
}

// What is counted so far.
#[derive(Drop)]
struct Counting {
    standings: Vec<SlotCount>,
    // The classes on the way up, each followed by its parent.
    way: Vec<u32>,
}

// The parent of a tuple class.
fn parent_of(classes: &List<ClassDef>, class: u32) -> Option<u32>
    ensures { result ≡ parent_in (shape_at classes.now class) }
{
    match classes.get(class as usize) {
        Some(found) => match &found.shape {
            Shape::Tuple { parent, .. } => *parent,
            _ => None,
        },
        None => None,
    }
}

// How many slots of its own a class has.
fn own_slots(classes: &List<ClassDef>, class: u32) -> u32
    ensures { result ≡ own_slot_count (shape_at classes.now class) }
{
    match classes.get(class as usize) {
        Some(found) => match &found.shape {
            Shape::Tuple { slots, .. } => slots.len(),
            _ => 0,
        },
        None => 0,
    }
}

// How far a class is counted. One that isn't there has no slots.
fn standing_of(standings: &[SlotCount], class: u32) -> SlotCount
    ensures { result ≡ known_or_none (slice_get standings.now class) }
{
    match standings.get(class as usize) {
        Some(standing) => *standing,
        None => SlotCount::Known(0),
    }
}

// Puts a class that wasn't met on the way.
fn meet(counting: &mut Counting, class: u32) -> Result<(), Memory>
    requires { class < length counting.old.standings.items }
    ensures { IfOk result (λ met. IsMet class counting.old counting.new) }
{
    counting.standings[class as usize] = SlotCount::OnWay;
    counting.way.push(class)?;
    Ok(())
}

// Goes up from a class to one that is counted, or has no parent: how many slots the parent of the last class on the way has.
fn climb(counting: &mut Counting, classes: &List<ClassDef>, class: u32) -> Result<u32, Memory>
    requires ends { classes_end classes.now ≡ true }
    requires idle { IsIdle classes.now counting.old }
    ensures { IfOk result (Climbed classes.now class counting.old counting.new) }
{
    let mut at = Some(class);
    while let Some(number) = at {
        match standing_of(counting.standings.as_slice(), number) {
            SlotCount::Known(count) => return Ok(count),
            SlotCount::OnWay => unreachable!(),
            SlotCount::Unmet => {
                meet(counting, number)?;
                at = parent_of(classes, number);
            }
        }
    }
    Ok(0)
}

// Goes back down, from the parent of the last class on the way, which has so many slots.
fn descend(counting: &mut Counting, classes: &List<ClassDef>, above: u32) -> Result<(), Memory>
    requires { MayDescend classes.now counting.old above }
    ensures { IfOk result (λ down. Visits classes.now counting.old counting.new) }
{
    let mut count = above;
    while let Some(class) = counting.way.pop() {
        count = match count.checked_add(own_slots(classes, class)) {
            Some(sum) => sum,
            None => return Err(Memory),
        };
        counting.standings[class as usize] = SlotCount::Known(count);
    }
    Ok(())
}

// Counts the slots of a class, and of those above it.
fn count_class(counting: &mut Counting, classes: &List<ClassDef>, class: u32) -> Result<(), Memory>
    requires ends { classes_end classes.now ≡ true }
    requires idle { IsIdle classes.now counting.old }
    ensures { IfOk result (λ counted. VisitsOne classes.now class counting.old counting.new) }
{
    let above = climb(counting, classes, class)?;
    descend(counting, classes, above)
}

// Counts the slots of all classes.
fn count_all(counting: &mut Counting, classes: &List<ClassDef>) -> Result<(), Memory>
    requires ends { classes_end classes.now ≡ true }
    requires idle { IsIdle classes.now counting.old }
    ensures { IfOk result (λ counted. IsOver classes.now counting.new) }
{
    for class in 0..classes.len() {
        count_class(counting, classes, class)?;
    }
    Ok(())
}

// How many slots a class has that is counted. What is read of finished standings stands here and in components.rt, each for standings of its own type.
fn count_of(standing: SlotCount) -> u32
    requires { is_known (Some standing) ≡ true }
    ensures { standing ≡ Known result }
{
    match standing {
        SlotCount::Known(count) => count,
        _ => unreachable!(),
    }
}

// How many slots each class has.
fn counts_of(alloc: Global, standings: &[SlotCount]) -> Result<List<u32>, Memory>
    requires { all_known standings.now ≡ true }
    ensures { IfOk result (λ counts. standings.now ≡ map Known counts) }
{
    let mut counts = List::new(alloc);
    for standing in standings {
        counts.push(count_of(*standing))?;
    }
    Ok(counts)
}

/// How many slots each class has, with those of its parents; only tuple classes have some. No class may reach itself by parents or members.
/// The time is linear in the number of classes. Want of memory is the one error.
pub fn slot_counts(alloc: Global, classes: &List<ClassDef>) -> Result<List<u32>, Memory>
    requires { classes_end classes.now ≡ true }
    ensures { IfOk result (λ counts. counts ≡ slot_counts classes.now) }
{
    let mut counting = Counting {
        standings: vec![in alloc; SlotCount::Unmet; classes.as_slice().len()]?,
        way: Vec::new(alloc),
    };
    count_all(&mut counting, classes)?;
    counts_of(alloc, counting.standings.as_slice())
}
