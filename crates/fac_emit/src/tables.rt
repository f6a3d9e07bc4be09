//! The rows of kinds, the class sets, and the words of classes with their kinds.
ghost use Rattle.std.specs.Prelude.{◌≡◌, ◌<◌, ◌++◌, length, map, OnOk, IfOk};
ghost use Rattle.fac_lang.specs.Classes.{has_own, own_kind};
ghost use Rattle.fac_emit.specs.ProgramTexts.{text_number};
ghost use Rattle.fac_emit.specs.ProgramTables.{slot_numbers, program_kinds, sets_from, sort_kind, program_pairs};
ghost use Rattle.fac_emit.specs.inner.OwnRows.{own_rows, own_pairs};

use crate::emission::Emission;
use fac_base::{List, Memory, Text};
use fac_classes::Classes;
use fac_code::KindRow;
use fac_lang::{ClassDef, Shape, Sort};
use std::alloc::Global;

// The numbers of slots as texts.
fn numbers_of_slots(emission: &Emission<'_>, slots: &List<Text>) -> Result<List<u32>, Memory>
    ensures { IfOk result (λ numbers. numbers ≡ map (text_number emission.now) slots.now) }
{
    let mut numbers = List::new(emission.alloc());
    for slot in slots.as_slice() {
        numbers.push(emission.text_number(slot))?;
    }
    Ok(numbers)
}

// Those of all slots of a class of this shape.
fn slots_of_class(
    emission: &Emission<'_>,
    class: u32,
    shape: &Shape,
) -> Result<Option<List<u32>>, Memory>
    requires { class < length emission.now.program.classes }
    ensures { IfOk result (λ numbers. numbers ≡ slot_numbers emission.now class shape.now) }
{
    match shape {
        Shape::Tuple { .. } => {
            let names = emission.classes().slots(emission.alloc(), class)?;
            Ok(Some(numbers_of_slots(emission, &names)?))
        }
        _ => Ok(None),
    }
}

// Whether a class of this shape has a kind of its own.
fn has_own_kind(shape: &Shape) -> bool
    ensures { result ≡ has_own shape.now }
{
    match shape {
        Shape::Tuple { .. } => true,
        Shape::Single => true,
        _ => false,
    }
}

// Adds the row of a class, where it has a kind of its own.
fn add_kind(
    emission: &Emission<'_>,
    rows: &mut List<KindRow>,
    number: u32,
    class: &ClassDef,
) -> Result<(), Memory>
    requires { number < length emission.now.program.classes }
    ensures { OnOk result (rows.new ≡ rows.old ++ own_rows emission.now number class.now) }
{
    if has_own_kind(&class.shape) {
        let slots = slots_of_class(emission, number, &class.shape)?;
        rows.push(KindRow {
            vocab: emission.text_number(&class.name.vocab),
            name: emission.text_number(&class.name.name),
            slots,
        })?;
    }
    Ok(())
}

/// The rows of the kinds of a program.
pub fn kinds_of(emission: &Emission<'_>) -> Result<List<KindRow>, Memory>
    ensures { IfOk result (λ kinds. kinds ≡ program_kinds emission.now) }
{
    let program = emission.program();
    let _count = program.classes.len();
    let mut rows = List::new(emission.alloc());
    let mut number = 0u32;
    for class in program.classes.as_slice() {
        add_kind(emission, &mut rows, number, class)?;
        number += 1;
    }
    Ok(rows)
}

/// The class sets: for each class its kinds.
pub fn sets_of(alloc: Global, classes: &Classes) -> Result<List<List<u32>>, Memory>
    ensures { IfOk result (λ sets. sets ≡ sets_from classes.now 0 classes.now) }
{
    let mut sets = List::new(alloc);
    for class in 0..classes.len() {
        sets.push(classes.kinds(alloc, class)?)?;
    }
    Ok(sets)
}

// The kind that a class has as its own.
fn own_kind_of(classes: &Classes, class: u32) -> Option<u32>
    ensures { result ≡ own_kind 8 classes.now class }
{
    if class < classes.len() {
        classes.kind_of(class)
    } else {
        None
    }
}

// The kind of the class whose word this is.
fn kind_of(classes: &Classes, sort: &Sort) -> Option<u32>
    ensures { result ≡ sort_kind classes.now sort.now }
{
    match sort {
        Sort::Class(class) => own_kind_of(classes, *class),
        _ => None,
    }
}

// Adds a word of this sort with its kind, where it is that of a class that has one.
fn add_pair(
    pairs: &mut List<(u32, u32)>,
    classes: &Classes,
    word: u32,
    sort: &Sort,
) -> Result<(), Memory>
    ensures { OnOk result (pairs.new ≡ pairs.old ++ own_pairs word (sort_kind classes.now sort.now)) }
{
    match kind_of(classes, sort) {
        Some(kind) => pairs.push((word, kind)),
        None => Ok(()),
    }
}

/// The words of classes that have a kind of their own, each with that kind.
pub fn pairs_of(emission: &Emission<'_>) -> Result<List<(u32, u32)>, Memory>
    ensures { IfOk result (λ pairs. pairs ≡ program_pairs emission.now.program) }
{
    let program = emission.program();
    let _count = program.words.len();
    let mut pairs = List::new(emission.alloc());
    let mut number = 0u32;
    for word in program.words.as_slice() {
        add_pair(&mut pairs, emission.classes(), number, &word.sort)?;
        number += 1;
    }
    Ok(pairs)
}
