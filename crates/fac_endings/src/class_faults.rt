//! What the end shows to be refused of classes.
ghost use Rattle.std.specs.Prelude.{◌≡◌, ◌<◌, ◌^◌, ◌+◌, ◌++◌, fold, length, Some, OnOk};
ghost use Rattle.fac_source.specs.Refusals.{fault_if, sooner};
ghost use Rattle.fac_source.specs.declared.refusal.NameKind.TheVariants.{Cycle};
ghost use Rattle.fac_endings.specs.LastRefusals.{class_faults, members_faults, named_faults, not_a_class, parent_fault, slot_faults, tuple_faults};
ghost use Rattle.fac_endings.specs.inner.Chains.{slots_of};
ghost use Rattle.fac_endings.specs.inner.Behind.{are_behind, is_behind};
ghost use Rattle.fac_endings.specs.inner.Cycles.{AreCycles};
ghost use Rattle.fac_endings.specs.inner.Lines.{AreLines};
ghost use Rattle.fac_lang.specs.Whole.{reaches};

use crate::draft::{Draft, Named, NewClass, Table};
use crate::lookup::{class_at, is_tuple_class};
use crate::parents::bearers_of;
use crate::slot_faults::refuse_slots;
use fac_base::{List, Memory, Place};
use fac_lang::ClassDef;
use fac_source::{NameFault, NameKind, Ref, Tok, refuse, refuse_if};
use std::alloc::Global;

// Whether a place stands behind the first refusal.
fn is_behind(first: &Option<NameFault>, place: Place) -> bool
    ensures { result ≡ is_behind first.now place }
{
    match first {
        Some(fault) => {
            fault.place.file < place.file
                || (fault.place.file == place.file && fault.place.token < place.token)
        }
        None => false,
    }
}

// Whether all of these names stand behind the first refusal.
fn are_behind(first: &Option<NameFault>, toks: &[Tok]) -> bool
    ensures { result ≡ are_behind first.now toks.now }
{
    for tok in toks {
        if !is_behind(first, tok.place) {
            return false;
        }
    }
    true
}

/// Refuses a name whose word is that of no class.
pub fn refuse_no_class(
    alloc: Global,
    first: &mut Option<NameFault>,
    drafts: &[Draft],
    name: &Ref,
) -> Result<(), Memory>
    ensures { OnOk result (first.new ≡ fold sooner first.old (not_a_class drafts.now name.now)) }
{
    match class_at(drafts, name) {
        Some(_) => Ok(()),
        None => refuse(alloc, first, NameKind::NotClass, &name.tok),
    }
}

// Refuses the members of a union that are no classes.
fn refuse_members(
    alloc: Global,
    first: &mut Option<NameFault>,
    drafts: &[Draft],
    members: &[Ref],
) -> Result<(), Memory>
    ensures { OnOk result (first.new ≡ fold sooner first.old (members_faults drafts.now members.now)) }
{
    for member in members {
        refuse_no_class(alloc, first, drafts, member)?;
    }
    Ok(())
}

// Refuses a parent that is no tuple class.
fn refuse_parent(
    alloc: Global,
    first: &mut Option<NameFault>,
    table: Table<'_>,
    parent: &Ref,
) -> Result<(), Memory>
    ensures { OnOk result (first.new ≡ fold sooner first.old (parent_fault table.entry.drafts.now table.entry.classes.now parent.now)) }
{
    let is_tuple = is_tuple_class(table.classes, class_at(table.drafts, parent));
    refuse_if(alloc, first, !is_tuple, NameKind::BadParent, &parent.tok)
}

// Refuses a parent that is no tuple class, and slots that repeat one of their list or of these parents.
fn refuse_tuple(
    alloc: Global,
    first: &mut Option<NameFault>,
    table: Table<'_>,
    bearers: &[u32],
    parent: &Ref,
    slots: &[Tok],
) -> Result<(), Memory>
    ensures { OnOk result (first.new ≡ fold sooner first.old (parent_fault table.entry.drafts.now table.entry.classes.now parent.now ++ slot_faults (slots_of table.entry.classes.now bearers.now) slots.now)) }
{
    refuse_parent(alloc, first, table, parent)?;
    refuse_slots(alloc, first, table.classes, bearers, slots)
}

// Refuses what a tuple class has by its parent. Where all of it stands behind the first refusal, nothing changes; so chains of parents are
// gone through for at most as many classes as a program may have.
fn refuse_heir(
    alloc: Global,
    first: &mut Option<NameFault>,
    table: Table<'_>,
    lines: &[Option<List<u32>>],
    class: u32,
    parent: &Ref,
    slots: &[Tok],
) -> Result<(), Memory>
    requires lines { AreLines table.classes.now (length table.classes.now) lines.now }
    requires there { class < length table.classes.now }
    ensures { OnOk result (first.new ≡ fold sooner first.old (tuple_faults table.entry.drafts.now table.entry.classes.now class (Some parent.now) slots.now)) }
{
    if is_behind(first, parent.tok.place) && are_behind(first, slots) {
        return Ok(());
    }
    match bearers_of(alloc, table.classes, lines, class, slots.len() as u64)? {
        Some(bearers) => refuse_tuple(alloc, first, table, bearers.as_slice(), parent, slots),
        None => refuse(alloc, first, NameKind::BadParent, &parent.tok),
    }
}

// Refuses what a class names.
fn refuse_named(
    alloc: Global,
    first: &mut Option<NameFault>,
    table: Table<'_>,
    lines: &[Option<List<u32>>],
    class: u32,
    names: &Named,
) -> Result<(), Memory>
    requires lines { AreLines table.classes.now (length table.classes.now) lines.now }
    requires there { class < length table.classes.now }
    ensures { OnOk result (first.new ≡ fold sooner first.old (named_faults table.entry.drafts.now table.entry.classes.now class names.now)) }
{
    match names {
        Named::Tuple(Some(parent), slots) => {
            refuse_heir(alloc, first, table, lines, class, parent, slots.as_slice())
        }
        Named::Tuple(None, slots) => {
            refuse_slots(alloc, first, table.classes, &[], slots.as_slice())
        }
        Named::Union(members) => refuse_members(alloc, first, table.drafts, members.as_slice()),
        Named::Single => Ok(()),
    }
}

// Refuses a class that reaches itself, and what it names.
fn refuse_class(
    alloc: Global,
    first: &mut Option<NameFault>,
    table: Table<'_>,
    lines: &[Option<List<u32>>],
    number: u32,
    is_cycle: bool,
    class: &NewClass,
) -> Result<(), Memory>
    requires lines { AreLines table.classes.now (length table.classes.now) lines.now }
    requires there { number < length table.classes.now }
    ensures { OnOk result (first.new ≡ fold sooner first.old (fault_if is_cycle Cycle class.now.tok ++ named_faults table.entry.drafts.now table.entry.classes.now number class.now.names)) }
{
    refuse_if(alloc, first, is_cycle, NameKind::Cycle, &class.tok)?;
    refuse_named(alloc, first, table, lines, number, &class.names)
}

// Whether a class reaches itself, by the flags of all classes.
#[tactic(auto, using(crate::proofs::CycleLemmas::flag_there, crate::proofs::CycleLemmas::flag_past))]
fn is_cycle(classes: &[ClassDef], cycles: &[bool], number: u32) -> bool
    requires { AreCycles classes.now cycles.now }
    ensures { result ≡ reaches (length classes.now) classes.now number number }
{
    match cycles.get(number as usize) {
        Some(flag) => *flag,
        None => false,
    }
}

/// Refuses what the end shows of classes, the first of which has this number.
pub fn refuse_classes(
    alloc: Global,
    first: &mut Option<NameFault>,
    table: Table<'_>,
    cycles: &[bool],
    lines: &[Option<List<u32>>],
    old: u32,
    new: &[NewClass],
) -> Result<(), Memory>
    requires cycles { AreCycles table.classes.now cycles.now }
    requires lines { AreLines table.classes.now (length table.classes.now) lines.now }
    requires all { old + length new.now ≡ length table.classes.now }
    requires few { length table.classes.now < 2 ^ 32 }
    ensures { OnOk result (first.new ≡ fold sooner first.old (class_faults table.entry.drafts.now table.entry.classes.now old new.now)) }
{
    let mut number = old;
    for class in new {
        let is_cycle = is_cycle(table.classes, cycles, number);
        refuse_class(alloc, first, table, lines, number, is_cycle, class)?;
        number += 1;
    }
    Ok(())
}
